ghost use Rattle.std.specs.Prelude.{◌≡◌, ◌<◌, ◌^◌};
ghost use Rattle.std.specs.List.{sum_by};
ghost use Rattle.std.specs.Option.{option_copied};
ghost use Rattle.store_rules.specs.ReplyBytes.{reply_bytes, item_bytes};
ghost use Rattle.store_rules.specs.Views.{as_found, as_bound, as_unbound, as_swapped, is_made, is_granted};
ghost use Rattle.store_rules.specs.Views.{is_opened, as_attached, as_block_list, is_sealed, is_block_sealed, is_stored, as_bytes};

use crate::any::AnyReply;
use crate::blocks::BlockReply;
use crate::disks::DiskReply;
use crate::files::FileReply;
use crate::names::{NameReply, Replaced};
use tect_ids::{Bytes, Hold, Items, Listed, Node, RowPart};

impl AnyReply {
    /// The node that a look found.
    pub fn as_found(&self) -> Option<Node>
        ensures { result ≡ as_found self.now }
    {
        match self {
            AnyReply::Name(NameReply::Found { node }) => Some(*node),
            _ => None,
        }
    }

    /// What a bind replaced, if it was done.
    pub fn as_bound(&self) -> Option<Option<Replaced>>
        ensures { result ≡ as_bound self.now }
    {
        match self {
            AnyReply::Name(NameReply::Bound { old }) => Some(*old),
            _ => None,
        }
    }

    /// What an unbind took the name from, if it was done.
    pub fn as_unbound(&self) -> Option<(Node, Hold)>
        ensures { result ≡ as_unbound self.now }
    {
        match self {
            AnyReply::Name(NameReply::Unbound { node, hold }) => Some((*node, *hold)),
            _ => None,
        }
    }

    /// The hold of the old name, and what the new one replaced, if a swap was done.
    pub fn as_swapped(&self) -> Option<(Hold, Option<Replaced>)>
        ensures { result ≡ as_swapped self.now }
    {
        match self {
            AnyReply::Name(NameReply::Swapped { hold, old }) => Some((*hold, *old)),
            _ => None,
        }
    }

    /// Whether a directory, a file or a block was made.
    pub fn is_made(&self) -> bool
        ensures { result ≡ is_made self.now }
    {
        matches!(
            self,
            AnyReply::Name(NameReply::Made)
                | AnyReply::File(FileReply::Made)
                | AnyReply::Block(BlockReply::Made)
        )
    }

    /// Whether a hold was granted.
    pub fn is_granted(&self) -> bool
        ensures { result ≡ is_granted self.now }
    {
        matches!(
            self,
            AnyReply::Name(NameReply::Made | NameReply::Granted)
                | AnyReply::File(FileReply::Made | FileReply::Granted)
                | AnyReply::Block(BlockReply::Made | BlockReply::Granted)
        )
    }

    /// Whether a token was written into a file.
    pub fn is_opened(&self) -> bool
        ensures { result ≡ is_opened self.now }
    {
        matches!(self, AnyReply::File(FileReply::Opened))
    }

    /// The index at which a block was added to a file.
    pub fn as_attached(&self) -> Option<u32>
        ensures { result ≡ as_attached self.now }
    {
        match self {
            AnyReply::File(FileReply::Attached { index }) => Some(*index),
            _ => None,
        }
    }

    /// The blocks of a file.
    pub fn as_block_list(&self) -> Option<&Items<RowPart>>
        ensures { option_copied result ≡ as_block_list self.now }
    {
        match self {
            AnyReply::File(FileReply::Blocks { rows, .. }) => Some(rows),
            _ => None,
        }
    }

    /// Whether a directory or a file is sealed now.
    pub fn is_sealed(&self) -> bool
        ensures { result ≡ is_sealed self.now }
    {
        matches!(
            self,
            AnyReply::Name(NameReply::SealedNow) | AnyReply::File(FileReply::SealedNow)
        )
    }

    /// Whether a block was sealed.
    pub fn is_block_sealed(&self) -> bool
        ensures { result ≡ is_block_sealed self.now }
    {
        matches!(self, AnyReply::Block(BlockReply::SealedNow))
    }

    /// Whether a disk keeps a chunk now.
    pub fn is_stored(&self) -> bool
        ensures { result ≡ is_stored self.now }
    {
        matches!(self, AnyReply::Disk(DiskReply::Stored))
    }

    /// The bytes of a chunk.
    pub fn as_bytes(&self) -> Option<&Bytes>
        ensures { option_copied result ≡ as_bytes self.now }
    {
        match self {
            AnyReply::Disk(DiskReply::Got { bytes }) => Some(bytes),
            _ => None,
        }
    }

    /// The bytes of names and of contents in the reply, and 32 for each item of a list. It takes no memory.
    pub fn bytes(&self) -> u128
        ensures bytes { result ≡ reply_bytes self.now }
        ensures few { result < 2 ^ 100 }
    {
        match self {
            AnyReply::Name(NameReply::Listing { items, .. }) => list_bytes(items.as_slice()),
            AnyReply::File(FileReply::Blocks { rows, .. }) => 32 * rows.len() as u128,
            AnyReply::Block(BlockReply::BlockIs { rows, .. }) => 32 * rows.len() as u128,
            AnyReply::Disk(DiskReply::Got { bytes }) => bytes.len() as u128,
            _ => 0,
        }
    }
}

fn list_bytes(items: &[Listed]) -> u128
    ensures bytes { result ≡ sum_by item_bytes items.now }
    ensures few { result < 2 ^ 100 }
{
    let mut bytes: u128 = 0;
    for item in items {
        bytes += item.name.bytes().len() as u128 + 32;
    }
    bytes
}
