//! What a newly held event hands out to whoever shows the text: how a page becomes the new text.

// An insert puts the event's character in front of the page's character `at`, or last; a delete takes
// the page's character `at` away. Three cases and no option of two: every event hands out one edit, and one of
// them changes nothing.
#[derive(Clone, Copy, Debug, PartialEq, Eq)]
pub enum Edit {
    Insert { at: u32 },
    Delete { at: u32 },
    Nothing,
}
