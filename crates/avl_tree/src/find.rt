//! The questions that go down from a link.
ghost use Rattle.std.specs.Prelude.{◌≡◌, ◌+◌, ◌≤◌, ◌++◌, take, vec_len, vec_capacity};
ghost use Rattle.avl_tree.specs.Nodes.{Held, Stands};
ghost use Rattle.avl_tree.specs.Tree.{Tree, entries, size};
ghost use Rattle.indexes.specs.Entries.{is_prepared, is_present};
ghost use Rattle.indexes.specs.Questions.{count, find, shifted};
ghost use Rattle.std.specs.List.{slice_get};

use crate::node::Node;
use crate::weigh::weight_of;
use indexes::Entry;

/// The entry at a place of the subtree at a link.
pub fn entry_below(nodes: &[Node], link: Option<u16>, place: usize) -> Option<Entry>
    requires { Stands nodes.now link }
    ensures { (t : Tree) → Held nodes.now link t → result ≡ slice_get (entries t) place }
{
    let node = nodes[link? as usize];
    let before = weight_of(nodes, node.left).size as usize;
    if place < before {
        entry_below(nodes, node.left, place)
    } else if place == before {
        Some(node.entry)
    } else {
        entry_below(nodes, node.right, place - before - 1)
    }
}

/// The place of the n-th prepared entry of the subtree at a link, `offset` entries further on.
pub fn nth_below(nodes: &[Node], link: Option<u16>, n: usize, offset: usize) -> Option<usize>
    requires { (t : Tree) × Held nodes.now link t × (offset + size t ≤ 65536) }
    ensures { (t : Tree) → Held nodes.now link t → result ≡ shifted offset (find is_prepared (entries t) n) }
{
    let node = nodes[link? as usize];
    let left = weight_of(nodes, node.left);
    let before = left.prepared as usize;
    let place = offset + left.size as usize;
    if n < before {
        nth_below(nodes, node.left, n, offset)
    } else if !node.entry.prepared_here() {
        nth_below(nodes, node.right, n - before, place + 1)
    } else if n == before {
        Some(place)
    } else {
        nth_below(nodes, node.right, n - before - 1, place + 1)
    }
}

/// How many of the first entries of the subtree at a link are present.
pub fn present_below(nodes: &[Node], link: Option<u16>, place: usize) -> usize
    requires { (t : Tree) × Held nodes.now link t × (size t ≤ 65536) }
    ensures { (t : Tree) → Held nodes.now link t → result ≡ count is_present (take place (entries t)) }
{
    let Some(j) = link else {
        return 0;
    };
    let node = nodes[j as usize];
    let left = weight_of(nodes, node.left);
    let before = left.size as usize;
    if place <= before {
        return present_below(nodes, node.left, place);
    }
    let own = usize::from(node.entry.is_present());
    left.present as usize + own + present_below(nodes, node.right, place - before - 1)
}

/// Writes the entries of the subtree at a link behind those that `out` has.
pub fn collect_below(nodes: &[Node], link: Option<u16>, out: &mut Vec<Entry>)
    requires { (t : Tree) × Held nodes.now link t × (vec_len out.old + size t ≤ vec_capacity out.old) }
    ensures after { (t : Tree) → Held nodes.now link t → out.new.items ≡ out.old.items ++ entries t }
    ensures kept { vec_capacity out.new ≡ vec_capacity out.old }
{
    if let Some(j) = link {
        let node = nodes[j as usize];
        collect_below(nodes, node.left, out);
        out.push_reserved(node.entry);
        collect_below(nodes, node.right, out);
    }
}
