ghost use Rattle.std.specs.Prelude.{◌≡◌, List, Option};
ghost use Rattle.region_tree.specs.declared.decl.RegionDecl.{RegionDecl};
ghost use Rattle.region_scrub.specs.declared.fault.RegionFault.{RegionFault};
ghost use Rattle.region_scrub.specs.Clearing.{Clears};

/// The same declarations are set aside, for the same faults, in one way at most.
pub fn one_clearing()
    ensures { (declared : List RegionDecl) (a b : List (Option RegionFault)) → Clears declared a → Clears declared b → a ≡ b }
{}
