ghost use Rattle.std.specs.Prelude.{◌≡◌, List, Contains, MatchOption};
ghost use Rattle.std.specs.Option.{option_copied};
ghost use Rattle.desk_base.specs.declared.key.PromiseKey.{PromiseKey as Key};
ghost use Rattle.result_records.specs.declared.finding.Finding.{Finding};
ghost use Rattle.consistency.specs.Blame.{Blame, IsWord, Leaf};
ghost use Rattle.consistency.specs.Rounds.{Con, Firm, HasVerdict};
ghost use Rattle.consistency.specs.Verdicts.{IsFailing, VerdictsOf, row_in};

use crate::numbers::{Numbers, number_of};
use crate::verdict::Verdict;
use desk_base::PromiseKey;
use result_records::{FindingKey, FindingLink};

/// What is judged of a promise.
#[derive(Drop)]
pub(crate) struct Judged {
    pub(crate) verdict: Verdict,
    pub(crate) blame: Option<FindingKey>,
    pub(crate) leaf: Option<FindingLink>,
}

/// What is judged of each promise of a graph.
#[derive(Drop)]
pub struct Verdicts {
    pub(crate) numbers: Numbers,
    pub(crate) judged: Vec<Judged>,
}

impl Verdicts {
    fn row(&self, key: &PromiseKey) -> Option<&Judged>
        ensures { option_copied result ≡ row_in self.now key.now }
    {
        match number_of(&self.numbers, key) {
            None => None,
            Some(number) => self.judged.get(number as usize),
        }
    }

    /// The verdict on a promise; None where the graph has no such promise. It takes no memory.
    pub fn verdict(&self, key: &PromiseKey) -> Option<Verdict>
        ensures { (ps : List Key) (fs : List Finding) → VerdictsOf ps fs self.now → MatchOption result (Contains ps key.now → ⊥) (λ v. Contains ps key.now × HasVerdict ps fs key.now v) }
    {
        match self.row(key) {
            None => None,
            Some(row) => Some(row.verdict),
        }
    }

    /// The failing finding that an inconsistent promise is blamed on; None where the promise isn't
    /// inconsistent. It takes no memory.
    pub fn blame(&self, key: &PromiseKey) -> Option<&FindingKey>
        ensures { (ps : List Key) (fs : List Finding) → VerdictsOf ps fs self.now → MatchOption result (Contains ps key.now → Con ps fs key.now) (λ b. Contains ps key.now × (Con ps fs key.now → ⊥) × Blame ps fs key.now b.now × IsFailing fs b.now) }
    {
        match self.row(key) {
            None => None,
            Some(row) => row.blame.as_ref(),
        }
    }

    /// The vouch or assumption that a contingent promise rests on; None where the promise isn't
    /// contingent. It takes no memory.
    pub fn leaf(&self, key: &PromiseKey) -> Option<&FindingLink>
        ensures { (ps : List Key) (fs : List Finding) → VerdictsOf ps fs self.now → MatchOption result (Contains ps key.now → Con ps fs key.now → (Firm ps fs key.now → ⊥) → ⊥) (λ l. Contains ps key.now × Con ps fs key.now × (Firm ps fs key.now → ⊥) × Leaf ps fs key.now l.now × IsWord l.now) }
    {
        match self.row(key) {
            None => None,
            Some(row) => row.leaf.as_ref(),
        }
    }
}
