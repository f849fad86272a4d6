ghost use Rattle.std.specs.Prelude.{◌≡◌};
ghost use Rattle.op_names.specs.Shards.{dir_shard, node_shard};

use memories::Memory;
use tect_ids::{DirId, Layer, Node, Place, place_of};

/// The shard of a directory.
pub fn place_of_dir(memory: &Memory, dir: DirId) -> Place
    ensures { result ≡ dir_shard memory.now.counts dir }
{
    place_of(Layer::Names, dir.0, &memory.counts())
}

/// The shard of a directory or of a file.
pub fn place_of_node(memory: &Memory, node: Node) -> Place
    ensures { result ≡ node_shard memory.now.counts node }
{
    match node {
        Node::Dir(dir) => place_of(Layer::Names, dir.0, &memory.counts()),
        Node::File(file) => place_of(Layer::Files, file.0, &memory.counts()),
    }
}
