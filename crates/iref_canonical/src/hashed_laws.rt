//! Laws of what is hashed: each is the contract of a function that does nothing.
ghost use Rattle.iref_splice.specs.Fed.{IsSelfDelimiting};
ghost use Rattle.iref_canonical.specs.Hashed.{IsPathKey, IsReadableKey, fed_lone_path, fed_reference};

/// What is hashed of a readable reference, and of a path alone, determines its key and where it ends.
pub fn canonical_texts_are_hashed_apart()
    ensures reference { IsSelfDelimiting IsReadableKey fed_reference }
    ensures path { IsSelfDelimiting IsPathKey fed_lone_path }
{}
