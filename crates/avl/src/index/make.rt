//! How an AVL index is made.
ghost use Rattle.std.specs.Prelude.{◌≡◌, min, [], vec_len, vec_capacity, MatchOption, ◌≢◌};
ghost use Rattle.avl.specs.Avl.{avl_entries, avl_room};

use super::AvlIndex;
use avl_tree::node::Node;
use indexes::Entry;

impl AvlIndex {
    /// An empty index over the nodes, with as many spare entries and a directory of 65,536 numbers,
    /// whatever they held; absent where the directory has another length. The smaller capacity of
    /// nodes and spare entries, at most 65,536, is its room.
    pub fn new(mut nodes: Vec<Node>, spare: Vec<Entry>, directory: Vec<u16>) -> Option<AvlIndex>
        ensures { MatchOption result (vec_len directory ≢ 65536) (λ s. (vec_len directory ≡ 65536) × (avl_entries s ≡ []) × (avl_room s ≡ min (min (vec_capacity nodes) (vec_capacity spare)) 65536)) }
    {
        if directory.len() != 65_536 {
            return None;
        }
        nodes.clear();
        Some(AvlIndex {
            nodes,
            root: None,
            directory,
            spare,
        })
    }
}
