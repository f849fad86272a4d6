ghost use Rattle.std.specs.Prelude.{◌≡◌};
ghost use Rattle.sealed_cache.specs.Sealed.{listing_of, names_rise, node_in};

use std::marker::Model;
use tect_ids::{Items, Listed, Name, Node};

/// The entries of a sealed directory, whose names rise. Contracts see a list.
#[derive(Drop)]
pub struct SealedListing {
    items: Items<Listed>,
}

impl Model for SealedListing {
    ghost use Rattle.std.specs.Prelude.{List, IsTrue};
    ghost use Rattle.tect_ids.specs.declared.values.Listed.{Listed};
    ghost use Rattle.sealed_cache.specs.Codes.{listing_code};
    ghost use Rattle.sealed_cache.specs.Sealed.{names_rise};

    ghost Value = { List Listed };

    ghost coded = { listing_code };

    ghost view = { λ listing. listing.items };

    ghost invariant = { λ listing. IsTrue (names_rise listing.items) };
}

impl SealedListing {
    /// The listing of a directory that is sealed. None where it is not sealed, or where the names do not rise, which no shard answers. It
    /// takes no memory.
    pub fn of(sealed: bool, items: Items<Listed>) -> Option<SealedListing>
        ensures { result ≡ listing_of sealed items }
    {
        if sealed && do_names_rise(items.as_slice()) {
            Some(SealedListing { items })
        } else {
            None
        }
    }

    /// The node that has the name. It takes no memory.
    pub fn find(&self, name: &Name) -> Option<Node>
        ensures { result ≡ node_in self.now name.now }
    {
        let items = self.items.as_slice();
        match items.binary_search_by(|entry| entry.name.cmp(name)) {
            Ok(at) => Some(items[at].node),
            Err(_) => None,
        }
    }

    /// The entries, in the order of their names. It takes no memory.
    pub fn items(&self) -> &Items<Listed>
        ensures { result.now ≡ self.now }
    {
        &self.items
    }
}

fn do_names_rise(items: &[Listed]) -> bool
    ensures { result ≡ names_rise items.now }
{
    items.is_sorted_by(|entry, next| entry.name < next.name)
}
