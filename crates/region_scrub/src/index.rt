ghost use Rattle.std.specs.Prelude.{◌≡◌, ℕ, ◌<◌, IfOk, None, Some, length, replicate};
ghost use Rattle.region_scrub.specs.Indexes.{IsIndexed};
ghost use Rattle.region_scrub.specs.Numbers.{key_at};

use desk_base::OutOfMemory;
use std::alloc::Global;

/// The keys of numbers, and which numbers have each key, in order: the first one of a key, and the
/// next one with the key of a number.
#[derive(Drop)]
pub(crate) struct Index {
    pub(crate) keys: Vec<Option<usize>>,
    pub(crate) first: Vec<Option<usize>>,
    pub(crate) next: Vec<Option<usize>>,
}

fn no_numbers(alloc: Global, count: usize) -> Result<Vec<Option<usize>>, OutOfMemory>
    ensures { IfOk result (λ numbers. numbers.items ≡ replicate count None) }
{
    let mut numbers = Vec::new(alloc);
    for _i in 0..count {
        numbers.push(None)?;
    }
    Ok(numbers)
}

impl Index {
    /// The index of these keys.
    pub(crate) fn new(alloc: Global, keys: Vec<Option<usize>>) -> Result<Index, OutOfMemory>
        requires { (k key : ℕ) → key_at keys.items k ≡ Some key → key < length keys.items }
        ensures keys { IfOk result (λ index. index.keys.items ≡ keys.items) }
        ensures indexed { IfOk result (λ index. IsIndexed index.keys.items index.first.items index.next.items) }
    {
        let mut first = no_numbers(alloc, keys.len())?;
        let mut next = no_numbers(alloc, keys.len())?;
        let mut at = keys.len();
        while at > 0 {
            at -= 1;
            if let Some(key) = keys[at] {
                next[at] = first[key];
                first[key] = Some(at);
            }
        }
        Ok(Index { keys, first, next })
    }
}
