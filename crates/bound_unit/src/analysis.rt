ghost use Rattle.std.specs.Prelude.{◌≡◌, ◌++◌, OnOk, OnErr, List};
ghost use Rattle.result_records.specs.declared.finding.Finding.{Finding as Found};
ghost use Rattle.views.specs.Face.{Seen};
ghost use Rattle.bound_unit.specs.UnitFacts.{UnitFacts};
ghost use Rattle.bound_unit.specs.Asked.{Agree, Covers};
ghost use Rattle.bound_unit.specs.Front.{Begins};

use crate::unit::BoundUnit;
use desk_base::{Items, OutOfMemory};
use result_records::Finding;
use std::alloc::Global;
use views::View;

/// An analysis: what it finds in a unit under a view. It depends on the view by what that shows of the
/// names that the unit consults, as long as these cover what may be asked of the unit.
pub trait Analysis {
    /// The findings of a unit under a view, in their order.
    ghost findings: { UnitFacts → Seen → List Found };

    /// Puts the findings of the unit under the view at the end. After want of memory what was there
    /// still stands in front.
    fn judge(
        &self,
        alloc: Global,
        unit: &BoundUnit,
        view: &View<'_>,
        out: &mut Items<Finding>,
    ) -> Result<(), OutOfMemory>
        ensures ok { OnOk result (out.new ≡ out.old ++ findings unit.now view.now) }
        ensures front { OnErr result (Begins out.old out.new) };

    /// Two views that agree on the names that the unit consults, which cover what may be asked of it,
    /// give the same findings.
    ghost local: { (unit : UnitFacts) (v w : Seen) → Covers unit v → Agree unit.consulted v w → findings unit v ≡ findings unit w };
}
