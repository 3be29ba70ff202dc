//! The cells of a flat index, trimmed in place.
ghost use Rattle.std.specs.Prelude.{◌≡◌, vec_capacity};
ghost use Rattle.indexes.specs.Changes.{trimmed};

use crate::entry::{Attachment, Entry};

/// Moves each present entry to the front, renewed, in one pass; the others go. What is kept becomes one chain on the
/// right of the root.
pub fn trim_cells(cells: &mut Vec<Entry>)
    ensures after { cells.new.items ≡ trimmed cells.old.items }
    ensures kept { vec_capacity cells.new ≡ vec_capacity cells.old }
{
    let mut attachment = Attachment::Root;
    cells.retain_mut(|entry| {
        let present = entry.is_present();
        if present {
            *entry = entry.renewed(attachment);
            attachment = Attachment::RightOf(entry.character);
        }
        present
    });
}
