//! What follows from the definitions alone: the call does nothing, and its contract is a law.

ghost use Rattle.std.specs.Prelude.{◌≡◌, ℕ, List, Option};
ghost use Rattle.java_tree.specs.declared.file.ClassTree.{ClassTree};
ghost use Rattle.java_tree.specs.declared.member.MemberTree.{MemberTree};
ghost use Rattle.views.specs.Face.{Seen};
ghost use Rattle.bound_unit.specs.UnitFacts.{UnitFacts};
ghost use Rattle.binder.specs.Units.{IsBound};

/// A unit of a class is bound under a view to one unit.
pub fn one_bound_unit()
    ensures { (class : ClassTree) (m : Option MemberTree) (key : List ℕ) (seen : Seen) (u v : UnitFacts) → IsBound class m key seen u → IsBound class m key seen v → u ≡ v }
{}
