ghost use Rattle.bound_tree.specs.Laws.{WalkFindsClaims, OneMoreClaim, PartByPart, AncestorsAlone};
ghost use Rattle.bound_tree.specs.Laws.{LiveIsNamed, LaterIsFollowed, BeforeIsFollowed, PassesTellCleanFlow};

/// The claims of a place by its ancestors are those of a running list: one more for each
/// `synchronized` block or member on the way inwards. So an analysis keeps such a list while it walks.
pub fn claims_run_along()
    ensures walk { WalkFindsClaims }
    ensures inwards { OneMoreClaim }
    ensures parts { PartByPart }
    ensures alone { AncestorsAlone }
{}

/// What is asked of all runs of a flow is told by one pass over it: backwards whether a local is
/// named later, forwards whether it can be spent before; and these two passes, with a count over the
/// phrase, tell whether a local's flow is clean.
pub fn passes_tell_runs()
    ensures live { LiveIsNamed }
    ensures later { LaterIsFollowed }
    ensures before { BeforeIsFollowed }
    ensures clean { PassesTellCleanFlow }
{}
