//! What versions by number have to do with versions by name.
ghost use Rattle.versions.specs.Named.{VersionsAreAlike};

// The theorem on names: an event is in the version of some numbers just where its name is in that of their names.
pub fn versions_are_alike()
    ensures answer { VersionsAreAlike }
{}
