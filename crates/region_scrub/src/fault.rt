/// Why a declaration is set aside. Where several faults fit, the first in this order counts.
#[derive(Clone, Copy, Debug, PartialEq, Eq)]
pub enum RegionFault {
    /// A root or an earlier declaration that is left has the name.
    Repeated,
    /// No region has the name of its parent.
    UnknownParent,
    /// Its parent is of the other kind.
    Mixed,
    /// Its chain of parents reaches no root.
    Cycle,
}
