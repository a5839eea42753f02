//! What follows from the definitions alone: the call does nothing, and its contract is a law.

ghost use Rattle.std.specs.Prelude.{◌≡◌, List};
ghost use Rattle.java_tree.specs.declared.token.Token.{Token};
ghost use Rattle.java_heads.specs.Laws.{OneTree};
ghost use Rattle.java_heads.specs.Headings.{OneHeading};
ghost use Rattle.java_heads.specs.Spelling.{PackageSpells, ImportSpells, HeaderSpells, FieldSpells, SigSpells};

/// Tokens begin with one part of each sort at most, which is no front of another; of headings of
/// members, with one that a body follows.
pub fn one_part()
    ensures package_line { OneTree PackageSpells }
    ensures import_line { OneTree ImportSpells }
    ensures header { OneTree HeaderSpells }
    ensures field { OneTree FieldSpells }
    ensures signature { OneTree SigSpells }
    ensures heading { OneHeading }
{}
