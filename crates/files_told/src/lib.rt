//! What the parts of commands on the contents of files owe: so that the history explains each of their answers, and so that each takes few
//! transactions. Nothing here is called: each function's contract is a record of laws, from which the laws of all runs follow whatever
//! the programs.
#![tactic(auto)]

ghost use Rattle.tect_ids.specs.declared.ids.Counts.{Counts};
ghost use Rattle.file_rules.specs.Append.{append};
ghost use Rattle.file_rules.specs.Blocks.{blocks};
ghost use Rattle.file_rules.specs.Open.{opening};
ghost use Rattle.file_rules.specs.Read.{read};
ghost use Rattle.telling_laws.specs.Parts.{PartTells};
ghost use Rattle.fall_laws.specs.Parts.{PartFalls};
ghost use Rattle.file_laws.specs.Known.{open_deciding, append_deciding, blocks_deciding, read_deciding};
ghost use Rattle.files_told.specs.FilesTelling.{open_telling, append_telling, blocks_telling, read_telling};
ghost use Rattle.files_told.specs.FilesBegin.{FilesBegin};
ghost use Rattle.files_told.specs.FilesTelling.{open_bounding, append_bounding, blocks_bounding, read_bounding};

/// Before a command's answer is decided, the history tells what it found, made and read; where the answer is decided, the history explains
/// it, and it stays so.
pub fn files_tell()
    ensures opens { (counts : Counts) → PartTells counts opening open_deciding (open_telling counts) }
    ensures appends { (counts : Counts) → PartTells counts append append_deciding (append_telling counts) }
    ensures lists { (counts : Counts) → PartTells counts blocks blocks_deciding (blocks_telling counts) }
    ensures reads { (counts : Counts) → PartTells counts read read_deciding (read_telling counts) }
{}

/// Each transaction leaves one less than was left before it, beside what a reply to a read adds: each block that it lists is located, and
/// each of its placed rows is asked for its chunk.
pub fn files_fall()
    ensures opens { PartFalls opening open_bounding }
    ensures appends { PartFalls append append_bounding }
    ensures lists { PartFalls blocks blocks_bounding }
    ensures reads { PartFalls read read_bounding }
{}

/// A command that its walk brought to the directory of its path's last name begins with what is told before its look. An append begins with
/// what it says, or its answer is explained: the file is not open, or there are too few disks for all copies.
pub fn files_begin()
    ensures { (counts : Counts) → FilesBegin counts }
{}
