ghost use Rattle.std.specs.Prelude.{◌≡◌, IfOk};
ghost use Rattle.store_rules.specs.Views.{as_found, is_made, is_granted, as_bound, as_unbound, as_swapped};
ghost use Rattle.store_rules.specs.Views.{is_opened, as_attached, is_block_sealed, as_location, is_stored, as_bytes};
ghost use Rattle.tect_calls.specs.Readings.{dir_in, hold_if, freed_old, bound_freed, swapped_freed, unbound_freed, given_if, new_block};

use crate::tokens::{
    BlockMade, BlockSealed, Freed, Granted, GrantedRow, Made, MadeDir, MadeFile, Spent, Stored,
};
use store_rules::{AnyReply, BlockReply, Replaced};
use tect_ids::{BlkId, Bytes, ChunkKey, FileId, Hold, Items, Location, NewRow, NoMemory, Node};

/// The directory that a look found, if it found one. It takes no memory, as no reading does.
pub fn found_dir(reply: &AnyReply) -> Option<MadeDir>
    ensures { result ≡ dir_in (as_found reply.now) }
{
    match reply.as_found() {
        Some(Node::Dir(dir)) => Some(MadeDir {
            dir,
            made: Made {
                node: Node::Dir(dir),
            },
        }),
        _ => None,
    }
}

/// The hold by which an object is held that was made for it, if it was made.
pub fn made_hold(hold: Hold, reply: &AnyReply) -> Option<Granted>
    ensures { result ≡ hold_if hold (is_made reply.now) }
{
    if reply.is_made() {
        return Some(Granted { hold });
    }
    None
}

/// The hold that was asked for, if it was granted.
pub fn granted_hold(hold: Hold, reply: &AnyReply) -> Option<Granted>
    ensures { result ≡ hold_if hold (is_granted reply.now) }
{
    if reply.is_granted() {
        return Some(Granted { hold });
    }
    None
}

// The hold of a file that was replaced can be released at it.
fn freed_of(old: Option<Replaced>) -> Option<Freed>
    ensures { result ≡ freed_old old }
{
    old.map(|old| Freed {
        node: Node::File(old.file),
        hold: Spent { hold: old.hold },
    })
}

/// What a bind that was done replaced, with its hold.
pub fn bound(reply: &AnyReply) -> Option<Option<Freed>>
    ensures { result ≡ bound_freed (as_bound reply.now) }
{
    reply.as_bound().map(freed_of)
}

/// What a swap that was done freed: the node's hold for its old name, and the hold of what its new name led to before.
pub fn swapped(node: Node, reply: &AnyReply) -> Option<(Freed, Option<Freed>)>
    ensures { result ≡ swapped_freed node (as_swapped reply.now) }
{
    let (hold, old) = reply.as_swapped()?;
    let first = Freed {
        node,
        hold: Spent { hold },
    };
    Some((first, freed_of(old)))
}

/// What an unbind that was done took the name from, with its hold.
pub fn unbound(reply: &AnyReply) -> Option<Freed>
    ensures { result ≡ unbound_freed (as_unbound reply.now) }
{
    let (node, hold) = reply.as_unbound()?;
    Some(Freed {
        node,
        hold: Spent { hold },
    })
}

/// The file whose token was taken, if it was. It stands, so it was made.
pub fn opened(file: FileId, reply: &AnyReply) -> Option<MadeFile>
    ensures { result ≡ given_if file (is_opened reply.now) }
{
    if !reply.is_opened() {
        return None;
    }
    Some(MadeFile {
        file,
        made: Made {
            node: Node::File(file),
        },
    })
}

/// The index of a block that was attached to a file, from 0, if it was.
pub fn attached(reply: &AnyReply) -> Option<u32>
    ensures { result ≡ as_attached reply.now }
{
    reply.as_attached()
}

/// The block that was asked for with these rows, if it was made, and the hold by which it is held for a row of the file.
pub fn block_made(
    blk: BlkId,
    file: FileId,
    hold: Hold,
    rows: Items<NewRow>,
    reply: &AnyReply,
) -> Option<(BlockMade, GrantedRow)>
    ensures { result ≡ given_if (new_block blk file hold rows) (is_made reply.now) }
{
    if !reply.is_made() {
        return None;
    }
    Some((BlockMade { blk, rows }, GrantedRow { blk, hold, file }))
}

/// The chunk that was put, if its disk has it now.
pub fn stored(chunk: ChunkKey, reply: &AnyReply) -> Option<Stored>
    ensures { result ≡ given_if chunk (is_stored reply.now) }
{
    if reply.is_stored() {
        return Some(Stored { chunk });
    }
    None
}

/// The block that was to be sealed, if it was.
pub fn block_sealed(blk: BlkId, reply: &AnyReply) -> Option<BlockSealed>
    ensures { result ≡ given_if blk (is_block_sealed reply.now) }
{
    if reply.is_block_sealed() {
        return Some(BlockSealed { blk });
    }
    None
}

/// Where a block lies, if the reply says so. No row is copied: the list is shared, which is refused where the count of its owners
/// is full.
pub fn location(reply: &AnyReply) -> Result<Option<Location>, NoMemory>
    ensures { IfOk result (λ found. found ≡ as_location reply.now) }
{
    let AnyReply::Block(
        BlockReply::BlockIs {
            class,
            len,
            sealed,
            version,
            rows,
        },
    ) = reply
    else {
        return Ok(None);
    };
    Ok(Some(Location {
        class: *class,
        len: *len,
        sealed: *sealed,
        version: *version,
        rows: rows.clone()?,
    }))
}

/// The bytes of a chunk, if the disk gave them. No byte is copied: they are shared, which is refused where the count of their
/// owners is full.
pub fn got(reply: &AnyReply) -> Result<Option<Bytes>, NoMemory>
    ensures { IfOk result (λ bytes. bytes ≡ as_bytes reply.now) }
{
    match reply.as_bytes() {
        None => Ok(None),
        Some(bytes) => Ok(Some(bytes.clone()?)),
    }
}
