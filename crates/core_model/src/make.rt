ghost use Rattle.std.specs.Prelude.{◌≡◌, ◌+◌, ◌++◌, replicate, OnOk, IfOk};
ghost use Rattle.core_model.specs.Objects as spec;
ghost use Rattle.core_model.specs.Filling.{filled, all_filled};

use crate::heap::Heap;
use crate::instr::ClassId;
use crate::object::{Obj, ObjKind};
use crate::program::{ClassInfo, FieldInfo, Initial};
use crate::value::Value;
use desk_base::{Items, OutOfMemory};
use std::alloc::Global;

/// The values of the fields so far, and the number of the next fresh Object.
#[derive(Drop)]
pub struct Filling {
    pub values: Items<Value>,
    pub next: u32,
}

impl Filling {
    fn put(&mut self, initial: Initial) -> Result<(), OutOfMemory>
        ensures { OnOk result (self.new ≡ filled self.old initial) }
    {
        match initial {
            Initial::Held(value) => self.values.push(value)?,
            Initial::FreshObject => {
                let Some(next) = self.next.checked_add(1) else {
                    return Err(OutOfMemory);
                };
                self.values.push(Value::Ref(self.next))?;
                self.next = next;
            }
        }
        Ok(())
    }

    /// The values that the static fields, or the others, begin with, their fresh Objects being
    /// numbered from `from` on.
    pub(crate) fn of_fields(
        alloc: Global,
        fields: &[FieldInfo],
        is_static: bool,
        from: u32,
    ) -> Result<Filling, OutOfMemory>
        ensures values { IfOk result (λ filling. filling.values ≡ spec.initial_values from (spec.initials is_static fields.now)) }
        ensures next { IfOk result (λ filling. filling.next ≡ from + spec.fresh_count (spec.initials is_static fields.now)) }
    {
        let mut filling = Filling {
            values: Items::new(alloc),
            next: from,
        };
        for field in fields {
            if field.is_static == is_static {
                filling.put(field.initial)?;
            }
        }
        Ok(filling)
    }
}

impl Heap {
    /// Puts so many fresh Objects at the end.
    pub(crate) fn push_fresh(&mut self, alloc: Global, count: u32) -> Result<(), OutOfMemory>
        ensures { OnOk result (self.new ≡ self.old ++ replicate count spec.fresh_object) }
    {
        for _ in 0..count {
            self.push(Obj::new(ObjKind::Plain, Items::new(alloc)))?;
        }
        Ok(())
    }

    /// Makes an object of the class, and then the fresh Objects of its fields.
    pub(crate) fn make(
        &mut self,
        alloc: Global,
        class: ClassId,
        info: &ClassInfo,
    ) -> Result<(), OutOfMemory>
        ensures { OnOk result (self.new ≡ spec.made self.old class info.now.fields) }
    {
        let Some(first) = self.next()?.checked_add(1) else {
            return Err(OutOfMemory);
        };
        let filling = Filling::of_fields(alloc, info.fields.as_slice(), false, first)?;
        let Filling { values, next } = filling;
        self.push(Obj::new(ObjKind::Made(class), values))?;
        self.push_fresh(alloc, next - first)
    }
}
