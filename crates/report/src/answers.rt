use consistency::Verdict;
use desk_base::{Bytes, Items, PromiseKey};
use result_records::{Finding, FindingKey, FindingLink};

/// A finding with the file and the line, from 1, where it is, and whether it fails. Findings that
/// merely say that a promise stands have no row.
#[derive(Debug, Drop)]
pub struct FindingRow {
    pub finding: Finding,
    pub path: Bytes,
    pub line: u32,
    pub fails: bool,
}

/// The verdict on a promise, the failing finding that is to blame where it is inconsistent, and the
/// vouch or assumption that it rests on where it is contingent.
#[derive(Debug, Drop)]
pub struct VerdictRow {
    pub key: PromiseKey,
    pub verdict: Verdict,
    pub blame: Option<FindingKey>,
    pub leaf: Option<FindingLink>,
}

/// All that the desk answers on a project: how many files, types and units it has, its findings in
/// order, and the verdicts in order, that on `Program` first.
#[derive(Debug, Drop)]
pub struct Answers {
    pub files: u32,
    pub types: u32,
    pub units: u32,
    pub findings: Items<FindingRow>,
    pub verdicts: Items<VerdictRow>,
}
