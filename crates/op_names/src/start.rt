ghost use Rattle.std.specs.Prelude.{◌≡◌, IfOk};
ghost use Rattle.tect_ids.specs.Numbers.{root};
ghost use Rattle.tect_ids.specs.Paths.{but_last};
ghost use Rattle.tect_ids.specs.declared.answer.Answer.TheVariants as answers;
ghost use Rattle.program_parts.specs.declared.next.Next.TheVariants.{Goes, Comes};
ghost use Rattle.program_parts.specs.Walks.{walk_on};
ghost use Rattle.program_rules.specs.declared.operation.Operation.TheVariants as operation;
ghost use Rattle.program_rules.specs.Operations.{begins_in};
ghost use Rattle.program_rules.specs.Served.{Appends, last_of, walks_to, walks_to_file, renames, begun, started};

use crate::walk::{self, Going};
use memories::{Memory, PathKey};
use op_files::append;
use program_parts::Next;
use program_rules::{NewNode, Operation, OperationState};
use tect_calls::MadeDir;
use tect_ids::{Answer, Bytes, Command, Name, NoMemory, Path, PathPart};

// All names but the last, and the last.
fn split(path: Path) -> Result<(PathPart, Option<Name>), NoMemory>
    ensures way { IfOk result (λ split. split.0 ≡ but_last path) }
    ensures last { IfOk result (λ split. split.1 ≡ last_of path) }
{
    let mut way = PathPart::whole(path);
    let last = way.take_last()?;
    Ok((way, last))
}

// It walks from the root.
fn walks(way: PathPart, operation: Operation) -> Result<Next<Going, Answer>, NoMemory>
    ensures { IfOk result (λ next. next ≡ Goes (walk_on begins_in root way operation)) }
{
    let state = walk::start(MadeDir::root(), way, operation)?;
    Ok(Next::Goes { state })
}

fn lacks_name() -> Next<Going, Answer>
    ensures { result ≡ Comes answers.NoName }
{
    Next::Comes {
        result: Answer::NoName,
    }
}

// The root is no file.
fn wants_file() -> Next<Going, Answer>
    ensures { result ≡ Comes answers.IsDir }
{
    Next::Comes {
        result: Answer::IsDir,
    }
}

/// Where a command begins: it walks from the root, or appends to what its actor opened, or has its answer at once, where it lacks a name or
/// a file that it needs. It takes memory for names of more than 30 bytes, and for an open's path.
pub fn start(memory: &Memory, command: Command) -> Result<Next<Going, Answer>, NoMemory>
    ensures { IfOk result (λ next. next ≡ started memory.now.counts memory.now.memory (begun command)) }
{
    match command {
        Command::Look { path } => {
            let (way, name) = split(path)?;
            walks(way, Operation::Look { name })
        }
        Command::List { path } => walks(PathPart::whole(path), Operation::List),
        Command::Create { path } => makes(memory, path, NewNode::File),
        Command::Mkdir { path } => makes(memory, path, NewNode::Dir),
        Command::Delete { path } => match split(path)? {
            (way, Some(name)) => walks(way, Operation::Delete { name }),
            _ => Ok(lacks_name()),
        },
        Command::Rename { from, to } => renames(memory, from, to),
        Command::Open { path } => opens(memory, path),
        Command::Append { path, bytes } => Ok(appends(memory, path, bytes)),
        Command::Blocks { path } => match split(path)? {
            (way, Some(name)) => walks(way, Operation::Blocks { name }),
            _ => Ok(wants_file()),
        },
        Command::Read { path } => match split(path)? {
            (way, Some(name)) => walks(way, Operation::Read { name }),
            _ => Ok(wants_file()),
        },
        Command::Seal { path } => {
            let (way, name) = split(path)?;
            walks(way, Operation::Seal { name })
        }
        _ => Ok(lacks_name()),
    }
}

fn makes(memory: &Memory, path: Path, kind: NewNode) -> Result<Next<Going, Answer>, NoMemory>
    ensures { IfOk result (λ next. next ≡ started memory.now.counts memory.now.memory
        (walks_to path (last_of path) (λ n. operation.Make kind n))) }
{
    match split(path)? {
        (way, Some(name)) => walks(way, Operation::Make { kind, name }),
        _ => Ok(lacks_name()),
    }
}

fn renames(memory: &Memory, from: Path, to: Path) -> Result<Next<Going, Answer>, NoMemory>
    ensures { IfOk result (λ next. next ≡ started memory.now.counts memory.now.memory (renames from (last_of from) (last_of to))) }
{
    let (_, to) = split(to)?;
    match (split(from)?, to) {
        ((way, Some(from)), Some(to)) => walks(way, Operation::Rename { from, to }),
        _ => Ok(lacks_name()),
    }
}

fn opens(memory: &Memory, path: Path) -> Result<Next<Going, Answer>, NoMemory>
    ensures { IfOk result (λ next. next ≡ started memory.now.counts memory.now.memory
        (walks_to_file path (last_of path) (λ n. operation.Open path n))) }
{
    let whole = PathKey::new(path.clone()?);
    match split(path)? {
        (way, Some(name)) => walks(way, Operation::Open { path: whole, name }),
        _ => Ok(wants_file()),
    }
}

fn appends(memory: &Memory, path: Path, bytes: Bytes) -> Next<Going, Answer>
    ensures { result ≡ started memory.now.counts memory.now.memory (Appends path bytes) }
{
    walk::there(within!(
        OperationState::Append,
        append::start(memory, &PathKey::new(path), bytes)
    ))
}
