use desk_base::PromiseKey;
use result_records::FindingCode;

/// A promise of a unit: its key, the number, from 1, of the token of the unit at which its annotation
/// begins (1 where it was spread), and the rule that it breaks where it is set aside.
#[derive(Drop)]
pub struct UnitPromise {
    pub key: PromiseKey,
    pub place: u32,
    pub fault: Option<FindingCode>,
}
