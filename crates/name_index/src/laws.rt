//! What holds of every index and of all names, as theorems: each function does nothing, and its contract
//! is the theorem.
ghost use Rattle.name_index.specs.Laws.{AllLawful, BitsTell};

// In every index no name stands twice, the names do not pass the room, and walks are short.
pub fn every_index_is_lawful()
    ensures theorem { AllLawful }
{}

// Names that agree in their 44 bits are the same name.
pub fn bits_tell_names_apart()
    ensures theorem { BitsTell }
{}
