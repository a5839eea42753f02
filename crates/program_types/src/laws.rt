//! What follows from the definitions alone: each call does nothing, and its contract is a law.

ghost use Rattle.program_types.specs.Laws.{CodeFitsNumbers, NamesFitNumbers, UnitsFitNumbers};

/// A statement that is typed by names is typed by the numbers of a program that fit these names, and so
/// is the tree of a unit; and the code of the unit finds what it uses, reads a local only once it is set,
/// and comes to its end as it must.
pub fn typed_names_have_typed_numbers()
    ensures statement { NamesFitNumbers }
    ensures unit { UnitsFitNumbers }
    ensures code { CodeFitsNumbers }
{}
