ghost use Rattle.std.specs.Prelude.{◌≡◌};
ghost use Rattle.consistency.specs.Verdict.{verdict_word};

/// What is concluded of a promise: that it holds by the code alone, that it holds if the vouches and
/// assumptions that it rests on do, or that the code isn't shown to keep it.
#[derive(Clone, Copy, Debug, PartialEq, Eq)]
pub enum Verdict {
    Firm,
    Contingent,
    Inconsistent,
}

impl Verdict {
    /// The verdict's word, as it is printed.
    pub fn text(self) -> &'static str
        ensures { result.now ≡ verdict_word self }
    {
        match self {
            Verdict::Firm => "firm",
            Verdict::Contingent => "contingent",
            Verdict::Inconsistent => "inconsistent",
        }
    }
}
