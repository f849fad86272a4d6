//! The commands on the contents of files keep the laws of parts. Nothing here is called: the contracts of the functions are what they keep.
#![tactic(auto)]

ghost use Rattle.std.specs.Prelude.{ℕ, List};
ghost use Rattle.file_rules.specs.Open.{opening, open_starts};
ghost use Rattle.file_rules.specs.Append.{append};
ghost use Rattle.file_rules.specs.Blocks.{blocks, blocks_starts};
ghost use Rattle.file_rules.specs.Read.{read, read_starts};
ghost use Rattle.part_laws.specs.Parts.{PartLaws};
ghost use Rattle.part_laws.specs.Walks.{BeginsLaws};
ghost use Rattle.file_laws.specs.Known.{open_deciding, open_known, append_deciding, append_known};
ghost use Rattle.file_laws.specs.Known.{blocks_deciding, blocks_known, read_deciding, read_known};
ghost use Rattle.file_laws.specs.Begins.{AppendBegins};

/// What an open, an append, a list of blocks or a read knows keeps its requests safe, stays so while others act, and holds where it goes
/// on, with its hold given up where its answer is decided. What an actor keeps of an open is so. None comes to an answer that a reply was
/// odd: of an append, each chunk is stored and its block is sealed; of a read, each block that is listed has a place, and its first row
/// has its chunk.
pub fn contents_are_lawful()
    ensures opening { PartLaws opening open_deciding open_known }
    ensures append { PartLaws append append_deciding append_known }
    ensures blocks { PartLaws blocks blocks_deciding blocks_known }
    ensures read { PartLaws read read_deciding read_known }
{}

/// An open, a list of blocks and a read begin with what a walk knows, undecided. An append begins with what it has to know, where its op
/// has said the bytes and its actor's memory is true: the file that is open was made.
pub fn contents_begin_lawfully()
    ensures opening { (path : List (List ℕ)) → BeginsLaws (open_starts path) open_deciding open_known }
    ensures append { AppendBegins }
    ensures blocks { BeginsLaws blocks_starts blocks_deciding blocks_known }
    ensures read { BeginsLaws read_starts read_deciding read_known }
{}
