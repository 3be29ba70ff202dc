//! What stands at a place of an index.
ghost use Rattle.std.specs.Prelude.{◌≡◌};
ghost use Rattle.indexes.specs.Entries.{is_prepared, is_present, with_prepared, with_effect, renewed};

/// Whether the character is in the text once every event held has had its effect.
#[derive(Clone, Copy, Debug, PartialEq, Eq)]
pub enum Effect {
    Present,
    Gone,
}

/// Where the character hangs in the tree: on the right of the root, or beside another character.
// No option: every character hangs somewhere, and the root is somewhere.
#[derive(Clone, Copy, Debug, PartialEq, Eq)]
pub enum Attachment {
    Root,
    LeftOf(u16),
    RightOf(u16),
}

/// A character by its event number. `prepared` is 0 where it is not inserted yet in the prepared
/// version, 1 where it is present there, and k + 1 where k deletes of that version struck it.
// A number and no enum: each advance adds one to it and each retreat takes one, in every case.
#[derive(Clone, Copy, Debug, PartialEq, Eq)]
pub struct Entry {
    pub character: u16,
    pub prepared: u32,
    pub effect: Effect,
    pub attachment: Attachment,
}

impl Entry {
    /// Whether it is present in the prepared version.
    pub fn prepared_here(&self) -> bool
        ensures { result ≡ is_prepared self.now }
    {
        self.prepared == 1
    }

    /// Whether it is in the text.
    pub fn is_present(&self) -> bool
        ensures { result ≡ is_present self.now }
    {
        self.effect == Effect::Present
    }

    /// The same entry in another prepared state.
    pub fn with_prepared(self, state: u32) -> Entry
        ensures { result ≡ with_prepared state self }
    {
        Entry {
            prepared: state,
            ..self
        }
    }

    /// The same entry with another effect.
    pub fn with_effect(self, effect: Effect) -> Entry
        ensures { result ≡ with_effect effect self }
    {
        Entry { effect, ..self }
    }

    /// The entry as a trim leaves it.
    pub fn renewed(self, attachment: Attachment) -> Entry
        ensures { result ≡ renewed attachment self }
    {
        Entry {
            prepared: 1,
            attachment,
            ..self
        }
    }
}
