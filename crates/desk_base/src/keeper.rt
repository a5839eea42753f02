ghost use Rattle.std.specs.Prelude.{◌≡◌, ℕ};

/// Where the tables are kept. So far only its count of faults is known; no call is made on it.
pub trait Keeper {
    /// How many calls have failed so far.
    ghost faults: { Self → ℕ };
}

/// A keeper in memory. No call has been made on it, so none has failed.
#[derive(Drop)]
pub struct MemKeeper;

impl Keeper for MemKeeper {
    ghost faults = { λ _. 0 };
}
