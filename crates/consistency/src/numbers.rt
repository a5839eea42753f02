ghost use Rattle.std.specs.Prelude.{◌≡◌, ◌<◌, ◌^◌, IfOk};
ghost use Rattle.consistency.specs.Keys.{Indexes, number_in};

use desk_base::{OutOfMemory, PromiseKey};
use std::alloc::Global;
use std::collections::BTreeMap;

/// The numbers of promises, by their keys.
pub(crate) type Numbers = BTreeMap<PromiseKey, u32>;

/// The number of a promise, if the map has it.
pub(crate) fn number_of(numbers: &Numbers, key: &PromiseKey) -> Option<u32>
    ensures { result ≡ number_in numbers.now key.now }
{
    numbers.get(key).copied()
}

/// A number in 32 bits. One that has no room there is taken as want of memory.
pub(crate) fn short(number: usize) -> Result<u32, OutOfMemory>
    ensures value { IfOk result (λ n. n ≡ number) }
    ensures fits { IfOk result (λ n. number < 2 ^ 32) }
{
    match u32::try_from(number) {
        Ok(short) => Ok(short),
        Err(_) => Err(OutOfMemory),
    }
}

pub(crate) fn copy_of(key: &PromiseKey) -> Result<PromiseKey, OutOfMemory>
    ensures { IfOk result (λ copy. copy ≡ key.now) }
{
    Ok(key.clone()?)
}

/// Gives each promise its place in the list as its number.
pub(crate) fn numbers_of(alloc: Global, keys: &[PromiseKey]) -> Result<Numbers, OutOfMemory>
    ensures { IfOk result (λ numbers. Indexes keys.now numbers) }
{
    let mut numbers = BTreeMap::new(alloc);
    for i in 0..keys.len() {
        numbers.insert(copy_of(&keys[i])?, short(i)?)?;
    }
    Ok(numbers)
}
