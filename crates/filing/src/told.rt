//! Events in plain words.
use event_file::FileView;
use events::{Event, Parents};
use std::alloc::{AllocError, Global};
use std::fmt::Write;

// The parents by name, or that there are none.
fn parents_told(heap: Global, view: &FileView, parents: &Parents) -> Result<String, AllocError> {
    let mut names = String::new(heap);
    for number in parents.as_slice() {
        if let Some(name) = view.name(*number as usize) {
            write!(names, " {name}")?;
        }
    }
    if names.is_empty() {
        return String::from_str(heap, "first");
    }
    format!(in heap; "after{names}")
}

// Event n in plain words: its name, its deed and its parents by name.
pub fn event_told(heap: Global, view: &FileView, n: usize) -> Result<String, AllocError> {
    let Some(
        Event {
            name,
            deed,
            parents,
        },
    ) = view.event(n)
    else {
        return String::from_str(heap, "no such event");
    };
    let after = parents_told(heap, view, &parents)?;
    format!(in heap; "{name} {deed}, {after}")
}
