ghost use Rattle.std.specs.Prelude.{◌≡◌, ◌≤◌, IfOk, IsOk, length};
ghost use Rattle.tect_ids.specs.NameBytes.{bytes_of, IsPlaced};

use std::alloc::{AllocError, Global};
use std::marker::Model;

/// At most 30 bytes, which lie in the value itself.
#[derive(Debug, Drop)]
pub(crate) struct Short {
    len: u8,
    places: [u8; 30],
}

impl Model for Short {
    ghost use Rattle.std.specs.Prelude.{ℕ, ◌≤◌, List, take};

    ghost Value = { List ℕ };

    ghost view = { λ short. take short.len short.places };

    ghost invariant = { λ short. short.len ≤ 30 };
}

/// The bytes of a name. Names are mostly short, and then take no memory.
#[derive(Debug, Drop)]
pub(crate) enum NameBytes {
    Inline(Short),
    /// More than 30 bytes.
    Heap(Vec<u8>),
}

impl Short {
    fn new(bytes: &[u8]) -> Short
        requires { length bytes.now ≤ 30 }
        ensures { result ≡ bytes.now }
    {
        let mut places = [0; 30];
        places[..bytes.len()].copy_from_slice(bytes);
        Short {
            len: bytes.len() as u8,
            places,
        }
    }

    fn copied(&self) -> Short
        ensures { result ≡ self.now }
    {
        Short {
            len: self.len,
            places: self.places,
        }
    }

    fn as_slice(&self) -> &[u8]
        ensures { result.now ≡ self.now }
    {
        &self.places[..self.len as usize]
    }
}

impl NameBytes {
    /// A copy of these bytes. It takes no memory for up to 30.
    pub(crate) fn from_slice(alloc: Global, bytes: &[u8]) -> Result<NameBytes, AllocError>
        ensures ok { IfOk result (λ held. bytes_of held ≡ bytes.now) }
        ensures short { length bytes.now ≤ 30 → IsOk result }
        ensures placed { IfOk result IsPlaced }
    {
        if bytes.len() <= 30 {
            return Ok(NameBytes::Inline(Short::new(bytes)));
        }
        Ok(NameBytes::Heap(Vec::from_slice(alloc, bytes)?))
    }

    /// The same bytes. It takes no memory where they lie in the value itself.
    pub(crate) fn copied(&self) -> Result<NameBytes, AllocError>
        requires { IsPlaced self.now }
        ensures ok { IfOk result (λ held. bytes_of held ≡ bytes_of self.now) }
        ensures short { length (bytes_of self.now) ≤ 30 → IsOk result }
        ensures placed { IfOk result IsPlaced }
    {
        match self {
            NameBytes::Inline(short) => Ok(NameBytes::Inline(short.copied())),
            NameBytes::Heap(bytes) => Ok(NameBytes::Heap(bytes.clone()?)),
        }
    }

    pub(crate) fn as_slice(&self) -> &[u8]
        ensures { result.now ≡ bytes_of self.now }
    {
        match self {
            NameBytes::Inline(short) => short.as_slice(),
            NameBytes::Heap(bytes) => bytes.as_slice(),
        }
    }
}
