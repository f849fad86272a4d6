ghost use Rattle.std.specs.Prelude.{◌≡◌, IfOk, is_some};
ghost use Rattle.store_rules.specs.Views.{as_parent, as_listing, is_made, is_granted, as_bound, as_unbound, as_swapped};
ghost use Rattle.tect_calls.specs.Teaching.{exists_facts, checked, listed_facts, made_facts, granted_facts, replaced_facts};
ghost use Rattle.tect_calls.specs.Teaching.{bound_facts, swapped_facts, unbound_facts, name_taught, file_taught};
ghost use Rattle.tect_calls.specs.Teaching.{taught};

use crate::tokens::{Fact, Granted, Made, Spent};
use std::alloc::Global;
use store_rules::{AnyReply, AnyReq, FileReq, NameReply, NameReq, Replaced};
use tect_ids::{DirId, Hold, NoMemory, Node};

/// The tokens that a reply taught, in the order of its words.
#[derive(Debug, Drop)]
pub struct Learned {
    pub tokens: Vec<Fact>,
}

// The directory, if the reply says that it stands.
fn checked_in(dir: DirId, reply: &AnyReply) -> Option<Node>
    ensures { result ≡ checked (Node.Dir dir) (is_some (as_parent reply.now)) }
{
    match reply {
        AnyReply::Name(NameReply::DirIs { .. }) => Some(Node::Dir(dir)),
        _ => None,
    }
}

// A node that stands was made.
fn of_node(alloc: Global, node: Option<Node>) -> Result<Vec<Fact>, NoMemory>
    ensures { IfOk result (λ facts. facts.items ≡ exists_facts node) }
{
    let mut facts = Vec::new(alloc);
    if let Some(node) = node {
        facts.push(Fact::Made(Made { node }))?;
    }
    Ok(facts)
}

// What each item of a listing names was made.
fn of_listing(alloc: Global, reply: &AnyReply) -> Result<Vec<Fact>, NoMemory>
    ensures { IfOk result (λ facts. facts.items ≡ listed_facts (as_listing reply.now)) }
{
    let AnyReply::Name(NameReply::Listing { items, .. }) = reply else {
        return Ok(Vec::new(alloc));
    };
    let mut facts = Vec::with_capacity(alloc, items.len())?;
    'items: for item in items.as_slice() {
        facts.push(Fact::Made(Made { node: item.node }))?;
    }
    Ok(facts)
}

// What was made, and the hold by which its maker has it.
fn of_making(alloc: Global, node: Node, hold: Hold, reply: &AnyReply) -> Result<Vec<Fact>, NoMemory>
    ensures { IfOk result (λ facts. facts.items ≡ made_facts node hold (is_made reply.now)) }
{
    let mut facts = Vec::new(alloc);
    if reply.is_made() {
        facts.push(Fact::Made(Made { node }))?;
        facts.push(Fact::Granted(Granted { hold }))?;
    }
    Ok(facts)
}

fn of_grant(alloc: Global, hold: Hold, reply: &AnyReply) -> Result<Vec<Fact>, NoMemory>
    ensures { IfOk result (λ facts. facts.items ≡ granted_facts hold (is_granted reply.now)) }
{
    let mut facts = Vec::new(alloc);
    if reply.is_granted() {
        facts.push(Fact::Granted(Granted { hold }))?;
    }
    Ok(facts)
}

// The hold of a file that was replaced is spent.
fn of_replaced(alloc: Global, old: Option<Replaced>) -> Result<Vec<Fact>, NoMemory>
    ensures { IfOk result (λ facts. facts.items ≡ replaced_facts old) }
{
    let mut facts = Vec::new(alloc);
    if let Some(Replaced { hold, .. }) = old {
        facts.push(Fact::Spent(Spent { hold }))?;
    }
    Ok(facts)
}

fn of_bind(alloc: Global, reply: &AnyReply) -> Result<Vec<Fact>, NoMemory>
    ensures { IfOk result (λ facts. facts.items ≡ bound_facts (as_bound reply.now)) }
{
    match reply.as_bound() {
        Some(old) => of_replaced(alloc, old),
        None => Ok(Vec::new(alloc)),
    }
}

fn of_swap(alloc: Global, reply: &AnyReply) -> Result<Vec<Fact>, NoMemory>
    ensures { IfOk result (λ facts. facts.items ≡ swapped_facts (as_swapped reply.now)) }
{
    let mut facts = Vec::new(alloc);
    if let Some((hold, old)) = reply.as_swapped() {
        facts.push(Fact::Spent(Spent { hold }))?;
        if let Some(Replaced { hold, .. }) = old {
            facts.push(Fact::Spent(Spent { hold }))?;
        }
    }
    Ok(facts)
}

fn of_unbind(alloc: Global, reply: &AnyReply) -> Result<Vec<Fact>, NoMemory>
    ensures { IfOk result (λ facts. facts.items ≡ unbound_facts (as_unbound reply.now)) }
{
    let mut facts = Vec::new(alloc);
    if let Some((_, hold)) = reply.as_unbound() {
        facts.push(Fact::Spent(Spent { hold }))?;
    }
    Ok(facts)
}

fn taught_by_name(alloc: Global, req: &NameReq, reply: &AnyReply) -> Result<Vec<Fact>, NoMemory>
    ensures { IfOk result (λ facts. facts.items ≡ name_taught req.now reply.now) }
{
    match req {
        NameReq::CheckDir { dir } => of_node(alloc, checked_in(*dir, reply)),
        NameReq::Look { .. } => of_node(alloc, reply.as_found()),
        NameReq::MakeDir { dir, hold, .. } => of_making(alloc, Node::Dir(*dir), *hold, reply),
        NameReq::Bind { .. } => of_bind(alloc, reply),
        NameReq::Swap { .. } => of_swap(alloc, reply),
        NameReq::Unbind { .. } => of_unbind(alloc, reply),
        NameReq::Grant { hold, .. } => of_grant(alloc, *hold, reply),
        NameReq::List { .. } => of_listing(alloc, reply),
        NameReq::Release { .. } | NameReq::SealDir { .. } => Ok(Vec::new(alloc)),
    }
}

fn taught_by_file(alloc: Global, req: &FileReq, reply: &AnyReply) -> Result<Vec<Fact>, NoMemory>
    ensures { IfOk result (λ facts. facts.items ≡ file_taught req.now reply.now) }
{
    match req {
        FileReq::MakeFile { file, hold, .. } => of_making(alloc, Node::File(*file), *hold, reply),
        FileReq::Grant { hold, .. } => of_grant(alloc, *hold, reply),
        FileReq::Release { .. }
        | FileReq::TakeToken { .. }
        | FileReq::Attach { .. }
        | FileReq::ListBlocks { .. }
        | FileReq::SealFile { .. } => Ok(Vec::new(alloc)),
    }
}

/// The tokens that the reply to a request teaches. A refusal teaches none; a listing one for each of its items.
///
/// It can be given an invented reply: the tokens order the requests of a program, and by themselves prove nothing of the
/// store.
pub fn learn(alloc: Global, asked: &AnyReq, reply: &AnyReply) -> Result<Learned, NoMemory>
    ensures { IfOk result (λ learned. learned.tokens.items ≡ taught asked.now reply.now) }
{
    let tokens = match asked {
        AnyReq::Name(req) => taught_by_name(alloc, req, reply)?,
        AnyReq::File(req) => taught_by_file(alloc, req, reply)?,
        AnyReq::Block(_) | AnyReq::Disk(_) => Vec::new(alloc),
    };
    Ok(Learned { tokens })
}
