use crate::{StepValue, Tree, TreeReply, TreeStep};
use std::test::Fail;
use tect_ids::{DirId, FileId, OpId, ROOT};

const DIR: DirId = DirId(4294967297);

const FILE: FileId = FileId(4294967298);

const OP: OpId = OpId {
    actor: 1,
    number: 1,
};

/// Whether the tree says to the step that it is done.
fn does(tree: &mut Tree, step: &TreeStep) -> Result<bool, Fail> {
    let reply = tree.play(OP, step)?;
    Ok(matches!(
        &reply,
        TreeReply::Ok {
            value: StepValue::Done
        }
    ))
}

fn makes(tree: &mut Tree) -> Result<bool, Fail> {
    let dir = TreeStep::MakeDir {
        dir: DIR,
        parent: ROOT,
    };
    let file = TreeStep::MakeFile {
        file: FILE,
        token: None,
    };
    Ok(does(tree, &dir)? && does(tree, &file)?)
}

/// How many entries the tree lists in the root.
fn count_in_root(tree: &mut Tree) -> Result<usize, Fail> {
    match tree.play(OP, &TreeStep::List { dir: ROOT })? {
        TreeReply::Ok {
            value: StepValue::Entries { items, .. },
        } => Ok(items.len()),
        _ => Err(Fail::new(format_args!("no listing"))),
    }
}

#[test]
fn what_is_made_is_there_with_ample_memory(rt: HostRuntime) -> Result<(), Fail> {
    let mut tree = Tree::start(rt.alloc())?;
    assert!(rt; makes(&mut tree)?);
    assert_eq!(rt; count_in_root(&mut tree)?, 0);
    Ok(())
}
