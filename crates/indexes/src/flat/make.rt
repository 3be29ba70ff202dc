//! How a flat index is made.
ghost use Rattle.std.specs.Prelude.{◌≡◌, min, [], vec_capacity};
ghost use Rattle.indexes.specs.Flat.{flat_entries, flat_room};

use super::FlatIndex;
use crate::entry::Entry;

impl FlatIndex {
    /// An empty index over the cells, whose capacity, at most 65,536, is its room. What they held
    /// is dropped.
    pub fn new(mut cells: Vec<Entry>) -> FlatIndex
        ensures after { flat_entries result ≡ [] }
        ensures room { flat_room result ≡ min (vec_capacity cells) 65536 }
    {
        cells.clear();
        FlatIndex { cells }
    }
}
