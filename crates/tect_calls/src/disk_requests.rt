ghost use Rattle.std.specs.Prelude.{◌≡◌};

use crate::asked::Asked;
use crate::tokens::RowMade;
use store_rules::{AnyReq, DiskReq};
use tect_ids::{Bytes, ChunkKey};

// The request to a disk, all of whose tokens were shown.
fn disk_asked(req: DiskReq) -> Asked
    ensures { result ≡ AnyReq.Disk req }
{
    Asked {
        req: AnyReq::Disk(req),
    }
}

/// Puts the bytes of a block to a disk, as the chunk of a row that was made.
pub fn disk_put(chunk: ChunkKey, bytes: Bytes, made: &RowMade) -> Asked
    requires { made.now ≡ chunk }
    ensures { result ≡ AnyReq.Disk (DiskReq.Put chunk bytes) }
{
    disk_asked(DiskReq::Put { chunk, bytes })
}

/// Asks a disk for the bytes of a chunk.
pub fn disk_get(chunk: ChunkKey) -> Asked
    ensures { result ≡ AnyReq.Disk (DiskReq.Get chunk) }
{
    disk_asked(DiskReq::Get { chunk })
}
