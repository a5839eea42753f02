ghost use Rattle.std.specs.Prelude.{◌≡◌, ◌∷◌, IfOk};
ghost use Rattle.core_model.specs.Straight as spec;

use crate::body::Body;
use crate::config::Mode;
use crate::frame::{After, Frame};
use crate::instr::{ClassId, FieldId, Note, Op};
use crate::value::Value;
use desk_base::OutOfMemory;
use std::alloc::Global;

/// The instructions that begin no call, enter no monitor and make no object.
impl Frame {
    pub(crate) fn get(self, local: u32) -> Result<After, OutOfMemory>
        ensures { IfOk result (λ a. a ≡ spec.get self local) }
    {
        let value = self.call.locals.as_slice().get(local as usize).copied();
        self.push_if(value)
    }

    fn set_to(mut self, local: u32, value: Value) -> Result<After, OutOfMemory>
        ensures { IfOk result (λ a. a ≡ spec.set_from self local (value ∷ self.call.temps)) }
    {
        if (local as usize) < self.call.locals.len() {
            self.call.locals.set(local as usize, value);
            self.goes_on()
        } else {
            self.ends()
        }
    }

    pub(crate) fn set(mut self, local: u32) -> Result<After, OutOfMemory>
        ensures { IfOk result (λ a. a ≡ spec.set_from self local self.call.temps) }
    {
        match self.call.temps.pop() {
            Some(value) => self.set_to(local, value),
            None => self.ends(),
        }
    }

    pub(crate) fn drop_top(mut self) -> Result<After, OutOfMemory>
        ensures { IfOk result (λ a. a ≡ spec.drop_from self self.call.temps) }
    {
        match self.call.temps.pop() {
            Some(_) => self.goes_on(),
            None => self.ends(),
        }
    }

    pub(crate) fn read(self, object: u32, field: FieldId) -> Result<After, OutOfMemory>
        ensures { IfOk result (λ a. a ≡ spec.read self object field) }
    {
        let value = self.objects.field(object, field);
        self.push_if(value)
    }

    fn field_on(self, field: FieldId, base: Value) -> Result<After, OutOfMemory>
        ensures { IfOk result (λ a. a ≡ spec.field_from self field (base ∷ self.call.temps)) }
    {
        match base {
            Value::Ref(object) => self.read(object, field),
            _ => self.ends(),
        }
    }

    pub(crate) fn field(mut self, field: FieldId) -> Result<After, OutOfMemory>
        ensures { IfOk result (λ a. a ≡ spec.field_from self field self.call.temps) }
    {
        match self.call.temps.pop() {
            Some(base) => self.field_on(field, base),
            None => self.ends(),
        }
    }

    fn keep_on(mut self, field: FieldId, base: Value) -> Result<After, OutOfMemory>
        ensures { IfOk result (λ a. a ≡ spec.keep_from self field (base ∷ self.call.temps)) }
    {
        match base {
            Value::Ref(object) => {
                self.call.temps.push(base)?;
                self.read(object, field)
            }
            _ => self.ends(),
        }
    }

    pub(crate) fn field_keep(mut self, field: FieldId) -> Result<After, OutOfMemory>
        ensures { IfOk result (λ a. a ≡ spec.keep_from self field self.call.temps) }
    {
        match self.call.temps.pop() {
            Some(base) => self.keep_on(field, base),
            None => self.ends(),
        }
    }

    fn write(mut self, object: u32, field: FieldId, value: Value) -> Result<After, OutOfMemory>
        ensures { IfOk result (λ a. a ≡ spec.write self object field value) }
    {
        if self.objects.field(object, field).is_some() {
            self.objects.put(object, field, value);
            self.goes_on()
        } else {
            self.ends()
        }
    }

    fn put_into(self, field: FieldId, value: Value, base: Value) -> Result<After, OutOfMemory>
        ensures { IfOk result (λ a. a ≡ spec.put_on self field value (base ∷ self.call.temps)) }
    {
        match base {
            Value::Ref(object) => self.write(object, field, value),
            _ => self.ends(),
        }
    }

    fn put_value(mut self, field: FieldId, value: Value) -> Result<After, OutOfMemory>
        ensures { IfOk result (λ a. a ≡ spec.put_from self field (value ∷ self.call.temps)) }
    {
        match self.call.temps.pop() {
            Some(base) => self.put_into(field, value, base),
            None => self.ends(),
        }
    }

    pub(crate) fn put_field(mut self, field: FieldId) -> Result<After, OutOfMemory>
        ensures { IfOk result (λ a. a ≡ spec.put_from self field self.call.temps) }
    {
        match self.call.temps.pop() {
            Some(value) => self.put_value(field, value),
            None => self.ends(),
        }
    }

    pub(crate) fn put_static(mut self, class: ClassId, field: FieldId) -> Result<After, OutOfMemory>
        ensures { IfOk result (λ a. a ≡ spec.put_static_from self class field self.call.temps) }
    {
        match self.call.temps.pop() {
            Some(value) => self.write(class, field, value),
            None => self.ends(),
        }
    }

    fn operate_on(mut self, op: Op, right: Value) -> Result<After, OutOfMemory>
        ensures { IfOk result (λ a. a ≡ spec.operate_from self op (right ∷ self.call.temps)) }
    {
        match self.call.temps.pop() {
            Some(left) => self.push_if(op.apply(left, right)),
            None => self.ends(),
        }
    }

    pub(crate) fn operate(mut self, op: Op) -> Result<After, OutOfMemory>
        ensures { IfOk result (λ a. a ≡ spec.operate_from self op self.call.temps) }
    {
        match self.call.temps.pop() {
            Some(right) => self.operate_on(op, right),
            None => self.ends(),
        }
    }

    fn neg_of(self, value: Value) -> Result<After, OutOfMemory>
        ensures { IfOk result (λ a. a ≡ spec.neg_from self (value ∷ self.call.temps)) }
    {
        match value {
            Value::Int(number) => self.push(Value::Int(number.wrapping_neg())),
            _ => self.ends(),
        }
    }

    pub(crate) fn neg(mut self) -> Result<After, OutOfMemory>
        ensures { IfOk result (λ a. a ≡ spec.neg_from self self.call.temps) }
    {
        match self.call.temps.pop() {
            Some(value) => self.neg_of(value),
            None => self.ends(),
        }
    }

    fn not_of(self, value: Value) -> Result<After, OutOfMemory>
        ensures { IfOk result (λ a. a ≡ spec.not_from self (value ∷ self.call.temps)) }
    {
        match value {
            Value::Bool(truth) => self.push(Value::Bool(!truth)),
            _ => self.ends(),
        }
    }

    pub(crate) fn not(mut self) -> Result<After, OutOfMemory>
        ensures { IfOk result (λ a. a ≡ spec.not_from self self.call.temps) }
    {
        match self.call.temps.pop() {
            Some(value) => self.not_of(value),
            None => self.ends(),
        }
    }

    pub(crate) fn leave_plain(mut self) -> Result<After, OutOfMemory>
        ensures { IfOk result (λ a. a ≡ spec.return_from self) }
    {
        self.call.temps.clear();
        self.after(Mode::Leaving(None))
    }

    pub(crate) fn leave_with_value(mut self) -> Result<After, OutOfMemory>
        ensures { IfOk result (λ a. a ≡ spec.return_value_from self self.call.temps) }
    {
        match self.call.temps.pop() {
            Some(value) => {
                self.call.temps.clear();
                self.after(Mode::Leaving(Some(value)))
            }
            None => self.ends(),
        }
    }

    fn branch_on(mut self, yes: Body, no: Body, value: Value) -> Result<After, OutOfMemory>
        ensures { IfOk result (λ a. a ≡ spec.branch_from self yes no (value ∷ self.call.temps)) }
    {
        match value {
            Value::Bool(truth) => {
                self.call.rest.prepend(if truth { yes } else { no })?;
                self.goes_on()
            }
            _ => self.ends(),
        }
    }

    pub(crate) fn branch(mut self, yes: Body, no: Body) -> Result<After, OutOfMemory>
        ensures { IfOk result (λ a. a ≡ spec.branch_from self yes no self.call.temps) }
    {
        match self.call.temps.pop() {
            Some(value) => self.branch_on(yes, no, value),
            None => self.ends(),
        }
    }

    pub(crate) fn turn(
        mut self,
        alloc: Global,
        note: Note,
        condition: Body,
        body: Body,
    ) -> Result<After, OutOfMemory>
        ensures { IfOk result (λ a. a ≡ spec.turn self note condition body) }
    {
        self.call.rest.push_turn(alloc, note, condition, body)?;
        self.goes_on()
    }
}
