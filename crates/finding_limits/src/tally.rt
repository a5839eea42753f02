ghost use Rattle.std.specs.Prelude.{◌≡◌, ◌+◌, ◌++◌, ℕ, [], List};
ghost use Rattle.result_records.specs.declared.finding.Finding.{Finding as Found};
ghost use Rattle.finding_limits.specs.Quantities.{passed_limit};
ghost use Rattle.finding_limits.specs.Tallied.{Tallies};

use crate::count::{finding_count, link_count};
use desk_base::LimitName;
use result_records::Finding;

/// How many promises, findings and links there are so far, each up to the greatest number of a `u64`.
#[derive(Clone, Copy)]
pub struct Tally {
    promises: u64,
    findings: u64,
    links: u64,
}

impl Tally {
    /// Of nothing.
    pub fn new() -> Tally
        ensures { Tallies result 0 [] }
    {
        Tally {
            promises: 0,
            findings: 0,
            links: 0,
        }
    }

    /// Counts promises, those that stand and those that are set aside.
    pub fn add_promises(&mut self, more: usize)
        ensures { (promises : ℕ) (findings : List Found) → Tallies self.old promises findings → Tallies self.new (promises + more) findings }
    {
        self.promises = self.promises.saturating_add(more as u64);
    }

    /// Counts findings and their links. That a promise stands is not counted.
    pub fn add(&mut self, more: &[Finding])
        ensures { (promises : ℕ) (findings : List Found) → Tallies self.old promises findings → Tallies self.new promises (findings ++ more.now) }
    {
        self.findings = self.findings.saturating_add(finding_count(more));
        self.links = self.links.saturating_add(link_count(more));
    }

    /// The first limit that is passed, of promises, findings and links.
    pub fn passed(&self) -> Option<LimitName>
        ensures { (promises : ℕ) (findings : List Found) → Tallies self.now promises findings → result ≡ passed_limit promises findings }
    {
        if self.promises > LimitName::Promises.max() {
            Some(LimitName::Promises)
        } else if self.findings > LimitName::Findings.max() {
            Some(LimitName::Findings)
        } else if self.links > LimitName::Links.max() {
            Some(LimitName::Links)
        } else {
            None
        }
    }
}
