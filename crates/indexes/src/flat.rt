//! The flat index: the entries in the order of the text, in cells that are handed over.
ghost use Rattle.std.specs.Prelude.{◌≤◌, min, vec_len, vec_capacity};
ghost use Rattle.indexes.specs.Laws.{Distinct};
ghost use Rattle.indexes.specs.Questions.{characters};

use crate::entry::Entry;

pub mod cells;
pub mod index;
pub mod make;

/// The capacity of the cells, at most 65,536, is the room: no change gives them other memory.
#[derive(Debug, Drop)]
pub struct FlatIndex {
    cells: Vec<Entry>,
    ghost distinct: { Distinct (characters cells.items) },
    ghost long: { vec_len cells ≤ min (vec_capacity cells) 65536 },
}
