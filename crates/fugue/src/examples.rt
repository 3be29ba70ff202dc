//! The examples, computed.
ghost use Rattle.fugue.specs.Examples.{Examples};

pub fn examples_are_computed()
    ensures { Examples }
{}
