ghost use Rattle.std.specs.Prelude.{vec_len};
ghost use Rattle.consistency.specs.Wired.{IsWired};

use desk_base::PromiseKey;
use result_records::{FindingKey, FindingLink};

/// What an alternative rests on, by number: a promise, or a person's word, that is a vouch or an
/// assumption.
#[derive(Clone, Copy, Debug, PartialEq, Eq)]
pub(crate) enum Link {
    Promise(u32),
    Word(u32),
}

/// A finding by numbers: its key, its promise, and the links of each of its alternatives.
#[derive(Drop)]
pub(crate) struct Clause {
    pub(crate) key: FindingKey,
    pub(crate) on: u32,
    pub(crate) alternatives: Vec<Vec<Link>>,
}

/// The promises of a project and what they rest on, by number.
#[derive(Drop)]
pub struct Graph {
    pub(crate) keys: Vec<PromiseKey>,
    pub(crate) words: Vec<FindingLink>,
    pub(crate) clauses: Vec<Clause>,
    ghost wired: { IsWired (vec_len keys) clauses.items },
}
