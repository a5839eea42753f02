//! What follows from the definitions alone: the call does nothing, and its contract is a law.

ghost use Rattle.java_tree.specs.declared.file.ClassTree.{ClassTree};
ghost use Rattle.promise_scrub.specs.Surfaces.{Surface};
ghost use Rattle.promise_scrub.specs.declared.surface.Surface.{Surface as Shown};
ghost use Rattle.views.specs.Face.{RegionsStand};

use header_scrub::regions_stand;

/// The regions of the surface of a class stand, so that it can be put among the others.
pub fn surface_regions_stand()
    ensures { (class : ClassTree) (shown : Shown) → Surface class shown → RegionsStand shown.regions }
{
    regions_stand();
}
