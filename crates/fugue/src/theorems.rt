//! The theorems: each function's contract is one, and the function says nothing else.
ghost use Rattle.fugue.specs.Theorems.{VersionIsHeadsAndBehind, WholeLogIsAVersion, TreeHasOneSequence, SequenceRisesByPaths};
ghost use Rattle.fugue.specs.Theorems.{SequencesAreNested, NewNodeHasItsPlace, DeedDoesWhatItSays, SameEventsMeanTheSame};
ghost use Rattle.fugue.specs.Theorems.{EditGivesTheText, ArchiveOrderIsOne};

// A version is its heads and all behind them.
pub fn version_is_heads_and_behind()
    ensures { VersionIsHeadsAndBehind }
{}

// All events held form a version.
pub fn whole_log_is_a_version()
    ensures { WholeLogIsAVersion }
{}

// A tree has exactly one sequence, the one computed.
pub fn tree_has_one_sequence()
    ensures { TreeHasOneSequence }
{}

// The sequence is the list of the nodes that rises by paths.
pub fn sequence_rises_by_paths()
    ensures { SequenceRisesByPaths }
{}

// A version's sequence is its part of every larger version's.
pub fn sequences_are_nested()
    ensures { SequencesAreNested }
{}

// A new node goes after exactly the nodes that precede it: of its parents' version, those up to its left origin.
pub fn new_node_has_its_place()
    ensures { NewNodeHasItsPlace }
{}

// In its parents' text an event does what it says at its own position, or lies beyond.
pub fn deed_does_what_it_says()
    ensures { DeedDoesWhatItSays }
{}

// Two logs that hold the same events have the same texts, edits and archive order.
pub fn same_events_mean_the_same()
    ensures { SameEventsMeanTheSame }
{}

// The edit of a new event, carried out on the old text, gives the new text.
pub fn edit_gives_the_text()
    ensures { EditGivesTheText }
{}

// Archive order exists, is unique, and is an order in which the events could have come.
pub fn archive_order_is_one()
    ensures { ArchiveOrderIsOne }
{}
