//! Which way the walk for a name goes on, and how a node is hung where it ends.
ghost use Rattle.std.specs.Prelude.{◌≡◌, ◌+◌, ◌<◌, [], ◌∷◌, ◌++◌, length, Some, vec_len, vec_capacity};
ghost use Rattle.name_index.specs.Walks.{turn_of, link_of, leaf, linked, hung};

use crate::node::Node;
use events::Name;

// Bit `depth` of a name: the bits of its number from the lowest, then those of its author.
pub(crate) fn turn(name: Name, depth: u32) -> bool
    ensures answer { result ≡ turn_of name depth }
{
    match depth {
        0..28 => (name.number >> depth) % 2 == 1,
        28..44 => (name.author >> (depth - 28)) % 2 == 1,
        _ => false,
    }
}

impl Node {
    // A node with nothing below it.
    pub(crate) fn new(name: Name) -> Node
        ensures answer { result ≡ leaf name }
    {
        Node {
            name,
            zero: None,
            one: None,
        }
    }

    // Where a walk with that bit goes on.
    pub(crate) fn link(&self, bit: bool) -> Option<u16>
        ensures answer { result ≡ link_of bit (Some self.now) }
    {
        if bit { self.one } else { self.zero }
    }

    // The node with that link set.
    pub(crate) fn with_link(&self, bit: bool, to: u16) -> Node
        ensures answer { result ≡ linked self.now bit to }
    {
        if bit {
            Node {
                one: Some(to),
                ..*self
            }
        } else {
            Node {
                zero: Some(to),
                ..*self
            }
        }
    }
}

// Puts a name at the end, and links it to an earlier node.
pub(crate) fn hang(nodes: &mut Vec<Node>, above: usize, bit: bool, name: Name)
    requires within { above < vec_len nodes.old }
    requires small { vec_len nodes.old < 65536 }
    requires reserved { vec_len nodes.old < vec_capacity nodes.old }
    ensures after { nodes.new.items ≡ hung nodes.old.items above bit name }
    ensures len { vec_len nodes.new ≡ vec_len nodes.old + 1 }
    ensures capacity { vec_capacity nodes.new ≡ vec_capacity nodes.old }
{
    let number = nodes.len() as u16;
    nodes[above] = nodes[above].with_link(bit, number);
    nodes.push_reserved(Node::new(name));
}
