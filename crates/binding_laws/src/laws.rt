//! What follows from the definitions alone: each call has a law for its contract, and does nothing but
//! call for the laws that it rests on.

ghost use Rattle.expression_binding.specs.Laws.{TypesAreAsked, OneAnswer};
ghost use Rattle.binding_laws.specs.Laws.{BindingCovers, FreeNamesDeclareNone, OneBinding, ReadNamesAreFree};

use tree_places::one_unit;

/// The type of a bound expression is the own class, String or one that its notes tell, and under two
/// tables that say one thing of these, and of the type that its place asks for, it is bound to one.
pub fn expressions_rest_on_what_they_tell()
    ensures types { TypesAreAsked }
    ensures one { OneAnswer }
{}

/// No type of a text that is read is called Object, String, Runnable or Thread, and where no surface is, a
/// view shows String and Object as they are without a declaration.
pub fn declared_names_are_free()
    ensures read { ReadNamesAreFree }
    ensures seen { FreeNamesDeclareNone }
{}

/// The consulted names of a bound unit cover whatever an analysis may ask of it under the view that it was
/// bound under, where no declared type has the name String.
pub fn consulted_names_cover()
    ensures { BindingCovers }
{}

/// The law of binding. Units of equal tokens, wherever these stand, are bound under one key to one unit,
/// with one tree, the same bind findings and the same consulted names, under two views that agree on the
/// names that one of them consults, where no declared type has the name String or Object.
pub fn units_are_bound_alike()
    ensures { OneBinding }
{
    one_unit();
}
