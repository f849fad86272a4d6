ghost use Rattle.std.specs.Prelude.{◌≡◌};
ghost use Rattle.store_rules.specs.Places.{request_place};
ghost use Rattle.tect_ids.specs.Places.{HasPlaces};

use store_rules::AnyReq;
use tect_ids::{Counts, Layer, Place, place_of};

/// The shard or disk that a request goes to, where each layer has 1 to 64. It takes no memory.
pub fn place(req: &AnyReq, counts: &Counts) -> Place
    requires { HasPlaces counts.now }
    ensures { result ≡ request_place counts.now req.now }
{
    match req {
        AnyReq::Name(req) => place_of(Layer::Names, req.dir().0, counts),
        AnyReq::File(req) => place_of(Layer::Files, req.file().0, counts),
        AnyReq::Block(req) => place_of(Layer::Blocks, req.blk().0, counts),
        AnyReq::Disk(req) => place_of(Layer::Disks, u64::from(req.disk().0), counts),
    }
}
