ghost use Rattle.std.specs.Prelude.{◌≡◌};
ghost use Rattle.region_tree.specs.declared.fault.RegionError.TheVariants as fault;

use desk_base::{Name, OutOfMemory};
use std::alloc::{AllocError, AllocFailed};
use std::error::Error;
use std::fmt;

/// Why regions can't be built. It names the first faulty declaration and, where all are good, the
/// first faulty field.
#[derive(Debug, Drop)]
pub enum RegionError {
    /// A root or an earlier declaration has the name.
    Repeated { name: Name },
    /// No region has the name of its parent.
    UnknownParent { name: Name },
    /// Its parent is of the other kind.
    Mixed { name: Name },
    /// Its chain of parents reaches no root.
    Cycle { name: Name },
    /// The field's region isn't there or is of the other kind.
    FieldRegion { name: Name },
    OutOfMemory,
}

impl fmt::Display for RegionError {
    fn fmt<W: fmt::Write>(&self, f: &mut fmt::Formatter<W>) -> fmt::Result {
        f.write_str(match self {
            RegionError::Repeated { .. } => "name used twice",
            RegionError::UnknownParent { .. } => "unknown region",
            RegionError::Mixed { .. } => "mixed kinds",
            RegionError::Cycle { .. } => "region cycle",
            RegionError::FieldRegion { .. } => "field in no region",
            RegionError::OutOfMemory => "out of memory",
        })
    }
}

impl Error for RegionError {}

impl From<AllocError> for RegionError {
    ghost from_gives = { λ _ e. e ≡ fault.OutOfMemory };

    fn from(_error: AllocError) -> RegionError {
        RegionError::OutOfMemory
    }
}

impl<T: Drop> From<AllocFailed<T>> for RegionError {
    ghost from_gives = { λ _ e. e ≡ fault.OutOfMemory };

    fn from(_error: AllocFailed<T>) -> RegionError {
        RegionError::OutOfMemory
    }
}

impl From<OutOfMemory> for RegionError {
    ghost from_gives = { λ _ e. e ≡ fault.OutOfMemory };

    fn from(_error: OutOfMemory) -> RegionError {
        RegionError::OutOfMemory
    }
}
