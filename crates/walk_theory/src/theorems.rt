//! The theorems: each function's contract is one, and the function says nothing else.
ghost use Rattle.walk_theory.specs.Tops.{TopDecides};
ghost use Rattle.walk_theory.specs.Search.{SearchFindsThePlace};
ghost use Rattle.walk_theory.specs.Counts.{CountsSuffice};
ghost use Rattle.walk_theory.specs.Bases.{TreesGrowAlike};
ghost use Rattle.walk_theory.specs.Agreement.{HomeIsOne, NewNodesAgree};
ghost use Rattle.walk_theory.specs.States.{StatesTell};
ghost use Rattle.walk_theory.specs.Standing.{ListsTheSequence, StandsAtFirst, CheckpointStands, WalkStands};
ghost use Rattle.walk_theory.specs.Indexed.{ShowsVersions, ShowsTheText, HoldsAtFirst, HoldsAtCheckpoint, GoesOn};

// Beside a new node, any node lies as its top at the new node's attachment does; without one, as it lies beside the owner.
pub fn top_decides()
    ensures { TopDecides }
{}

// The climb and the scan find the attachment and the place of a new node.
pub fn search_finds_the_place()
    ensures { SearchFindsThePlace }
{}

// Counts of what hangs where give the same, and the scan's test turns once.
pub fn counts_suffice()
    ensures { CountsSuffice }
{}

// Trees that grow over two bases that agree, agree.
pub fn trees_grow_alike()
    ensures { TreesGrowAlike }
{}

// A version gives a left origin one attachment in both trees.
pub fn home_is_one()
    ensures { HomeIsOne }
{}

// A new node keeps the agreement.
pub fn new_nodes_agree()
    ensures { NewNodesAgree }
{}

// The index lists the sequence, less what was dropped.
pub fn lists_the_sequence()
    ensures { ListsTheSequence }
{}

// With nothing closed off the index lists the sequence.
pub fn stands_at_first()
    ensures { StandsAtFirst }
{}

// A checkpoint keeps a part of the list, in a chain.
pub fn checkpoint_stands()
    ensures { CheckpointStands }
{}

// A new event goes into the list where the search puts it.
pub fn walk_stands()
    ensures { WalkStands }
{}

// The index shows every version that has all closed-off events.
pub fn shows_versions()
    ensures { ShowsVersions }
{}

// The index shows the text of all events.
pub fn shows_the_text()
    ensures { ShowsTheText }
{}

// With nothing closed off, the index of a log lists its sequence.
pub fn holds_at_first()
    ensures { HoldsAtFirst }
{}

// A checkpoint keeps what is in the text, and closes off all events.
pub fn holds_at_checkpoint()
    ensures { HoldsAtCheckpoint }
{}

// The index takes in every new event whose parents' version has all closed-off events, and its edit is counted in the list.
pub fn goes_on()
    ensures { GoesOn }
{}

// A version has a character where its state is above 0, and shows it where it is 1.
pub fn states_tell()
    ensures { StatesTell }
{}
