//! Numbers of names. The names are lent by what they stand in.

ghost use Rattle.std.specs.Prelude.{◌≡◌, List, IfOk, OnOk};
ghost use Rattle.program_maker.specs.Seen.{Name, with_new};
ghost use Rattle.program_maker.specs.Numbered.{AreSeen, PutsFirst, number_at};

use desk_base::{Items, OutOfMemory};
use std::alloc::Global;
use std::collections::BTreeMap;

/// The number in 32 bits. What has no room in them is taken as want of memory.
pub(crate) fn short(number: usize) -> Result<u32, OutOfMemory>
    ensures { IfOk result (λ short. short ≡ number) }
{
    if number > u32::MAX as usize {
        return Err(OutOfMemory);
    }
    Ok(number as u32)
}

/// Gives the number to a name that has none.
pub(crate) fn put_first<'a>(
    numbers: &mut BTreeMap<&'a [u8], u32>,
    name: &'a [u8],
    number: u32,
) -> Result<(), OutOfMemory>
    ensures { OnOk result (PutsFirst numbers.old numbers.new name.now number) }
{
    if !numbers.contains_key(name) {
        numbers.insert(name, number)?;
    }
    Ok(())
}

/// The number of a name.
pub(crate) fn number_of(numbers: &BTreeMap<&[u8], u32>, name: &[u8]) -> Option<u32>
    ensures { result ≡ number_at numbers.now name.now }
{
    numbers.get(name).copied()
}

/// Names in the order in which they were first seen, with the place of each.
#[derive(Drop)]
pub(crate) struct SeenNames<'a> {
    pub(crate) names: Items<&'a [u8]>,
    pub(crate) numbers: BTreeMap<&'a [u8], u32>,
}

impl<'a> SeenNames<'a> {
    ghost use Rattle.std.specs.Prelude.{[]};

    pub(crate) fn new(alloc: Global) -> SeenNames<'a>
        ensures { AreSeen result [] }
    {
        SeenNames {
            names: Items::new(alloc),
            numbers: BTreeMap::new(alloc),
        }
    }

    /// Puts a name that isn't there yet behind the others.
    pub(crate) fn see(&mut self, name: &'a [u8]) -> Result<(), OutOfMemory>
        ensures { OnOk result ((names : List Name) → AreSeen self.old names → AreSeen self.new (with_new names name.now)) }
    {
        if self.numbers.contains_key(name) {
            return Ok(());
        }
        let number = short(self.names.len())?;
        self.names.push(name)?;
        self.numbers.insert(name, number)?;
        Ok(())
    }

    /// The place of a name.
    pub(crate) fn place(&self, name: &[u8]) -> Option<u32>
        ensures { result ≡ number_at self.now.numbers name.now }
    {
        number_of(&self.numbers, name)
    }
}
