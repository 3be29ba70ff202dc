//! The names as nodes of a tree: node k has name k, and node 0 is the root.
ghost use Rattle.std.specs.Prelude.{◌≤◌, vec_len, vec_capacity};
ghost use Rattle.name_index.specs.Walks.{Sound};

use crate::node::Node;

// A tree in one list in place of a map: all memory is taken when the index is made, so that no call after
// that allocates or fails for memory, and a walk looks at 45 names at most.
#[derive(Drop)]
pub struct NameIndex {
    pub(crate) nodes: Vec<Node>,
    // how many names were asked for: the list may have taken memory for more
    pub(crate) room: usize,
    ghost within: { vec_len nodes ≤ room },
    ghost reserved: { room ≤ vec_capacity nodes },
    ghost small: { room ≤ 65536 },
    ghost sound: { ∥ Sound nodes.items ∥₁ },
}
