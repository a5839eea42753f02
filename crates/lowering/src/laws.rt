ghost use Rattle.lowering.specs.Laws.{StatementActs, UnitActs, StepsAreActs, NumbersKeepActs, NumberedIsUnmarked, ActsStay};
ghost use Rattle.lowering.specs.Laws.{StatementFlow, UnitFlow};
ghost use Rattle.lowering.specs.Laws.{OperandsHaveOrigins, OriginsNeedNone, SetsStandApart, DistinctNodesTell};
ghost use Rattle.lowering.specs.Laws.{TypedCodeFits, TypedCodeNeedsNone, ReadsAreLive, EndsAsItsTree};

/// What the code of a tree reads, writes, calls, makes and starts at each place, with the claims of the
/// monitors that its code holds there, is what the tree does there, with the claims of the place's
/// ancestors, in the same order; numbers in the place of names keep it; and what is known of each
/// place is known wherever a run may come to it, by the claims of the marks of monitors that are left.
pub fn code_acts_as_its_tree()
    ensures statement { StatementActs }
    ensures unit { UnitActs }
    ensures steps { StepsAreActs }
    ensures numbers { NumbersKeepActs }
    ensures unmarked { NumberedIsUnmarked }
    ensures left { ActsStay }
{}

/// The flow of the locals in the code of a tree is their flow in the tree.
pub fn code_flows_as_its_tree()
    ensures statement { StatementFlow }
    ensures unit { UnitFlow }
{}

/// At each access, call, `new` and start in the code of a typed tree, an operand that the tree names as
/// `this`, as a local or as a parameter is what that local holds; told by a table by place, which there
/// is where the nodes of the tree have numbers of their own.
pub fn operands_come_from_what_they_name()
    ensures fits { OperandsHaveOrigins }
    ensures needs { OriginsNeedNone }
    ensures apart { SetsStandApart }
    ensures table { DistinctNodesTell }
{}

/// The code of a typed tree finds its temporaries and leaves none; it may read a local before it sets
/// it exactly where the local is live as the tree begins, and come to an end without a result exactly
/// where the tree may.
pub fn typed_trees_have_typed_code()
    ensures fits { TypedCodeFits }
    ensures needs { TypedCodeNeedsNone }
    ensures reads { ReadsAreLive }
    ensures ends { EndsAsItsTree }
{}
