//! What follows from the definitions alone: the call does nothing, and its contract is a law.

ghost use Rattle.typed_units.specs.Laws.{TypedGives};

/// A typed expression gives a value of the type that is told of it, unless it is a call of a method
/// without result.
pub fn typed_expressions_give_values()
    ensures { TypedGives }
{}
