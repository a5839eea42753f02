//! What follows from the definitions alone: the calls do nothing, and their contracts are laws.

ghost use Rattle.binding_types.specs.Bodies.{BodiesTyped};
ghost use Rattle.binding_types.specs.Members.{UnitsTyped};

/// A body that is bound without a finding is typed: each of its expressions has the type that is told
/// of it and suits its place, the types of its locals are there, each local but `this` and the
/// parameters is set before it is named, and with a result it comes to no end without one.
pub fn bound_bodies_are_typed()
    ensures { BodiesTyped }
{}

/// A unit of a class that is bound with nothing found is typed, where the types that the project's
/// fields and members are declared with are there, its class is declared, its statements are as the
/// grammar has them, and its view shows the member under its key.
pub fn bound_units_are_typed()
    ensures { UnitsTyped }
{}
