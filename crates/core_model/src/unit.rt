ghost use Rattle.std.specs.Prelude.{◌≡◌, ◌++◌, ◌-◌, length, replicate, IfOk};
ghost use Rattle.core_model.specs.Units as spec;

use crate::config::{Call, Gives};
use crate::instr::{ClassId, MemberId, UnitId};
use crate::program::{ClassInfo, Program, UnitCode};
use crate::stack::Stack;
use crate::value::Value;
use desk_base::{Items, OutOfMemory};
use std::alloc::Global;

/// The arguments, and null in the locals after them.
fn padded(mut args: Items<Value>, locals: u32) -> Result<Items<Value>, OutOfMemory>
    ensures { IfOk result (λ all. all ≡ args ++ replicate (locals - length args) Value.Null) }
{
    let missing = (locals as usize).saturating_sub(args.len());
    for _ in 0..missing {
        args.push(Value::Null)?;
    }
    Ok(args)
}

impl UnitCode {
    /// A call of the unit as it begins.
    fn call(
        &self,
        alloc: Global,
        unit: UnitId,
        args: Items<Value>,
        gives: Gives,
    ) -> Result<Call, OutOfMemory>
        ensures { IfOk result (λ call. call ≡ spec.call_with unit self.now args gives) }
    {
        Ok(Call {
            unit,
            rest: self.code.copy(alloc)?,
            locals: padded(args, self.locals)?,
            temps: Stack::new(alloc),
            gives,
        })
    }
}

impl ClassInfo {
    /// The number of the class's unit of the name and of so many parameters.
    pub fn unit(&self, name: MemberId, params: u32) -> Option<UnitId>
        ensures { result ≡ spec.number_in self.now.units name params }
    {
        self.units
            .as_slice()
            .iter()
            .find(|unit| unit.name == name && unit.params == params)
            .map(|unit| unit.unit)
    }
}

impl Program {
    /// The number of the class's unit of the name and of so many parameters, if there are such a
    /// class and unit.
    pub fn unit_number(&self, class: ClassId, name: MemberId, params: u32) -> Option<UnitId>
        ensures { result ≡ spec.unit_number self.now class name params }
    {
        match self.classes.get(class as usize) {
            Some(info) => info.unit(name, params),
            None => None,
        }
    }

    /// A call of the unit as it begins: the arguments come first among its locals, `this` before
    /// them.
    pub(crate) fn call_of(
        &self,
        alloc: Global,
        unit: Option<UnitId>,
        args: Items<Value>,
        gives: Gives,
    ) -> Result<Option<Call>, OutOfMemory>
        ensures { IfOk result (λ call. call ≡ spec.call_of self.now unit args gives) }
    {
        let Some(unit) = unit else {
            return Ok(None);
        };
        match self.units.get(unit as usize) {
            Some(code) => Ok(Some(code.call(alloc, unit, args, gives)?)),
            None => Ok(None),
        }
    }
}
