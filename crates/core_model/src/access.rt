ghost use Rattle.std.specs.Prelude.{◌≡◌, slice_get};
ghost use Rattle.std.specs.Option.{option_copied};
ghost use Rattle.core_model.specs.NextAccess as spec;
ghost use Rattle.core_model.specs.Objects.{of_kind};

use crate::config::{Call, Config, Mode, Thread};
use crate::heap::Heap;
use crate::instr::{FieldId, Plain};
use crate::object::ObjKind;
use crate::program::{FieldInfo, Program};
use crate::stack::Stack;
use crate::value::Value;

/// A read or a write of a field of an object.
#[derive(Clone, Copy, Debug, PartialEq, Eq)]
pub struct Access {
    pub object: u32,
    pub field: FieldId,
    pub write: bool,
}

/// The field of the number among the static ones, or among the others.
fn field_of_kind(fields: &[FieldInfo], is_static: bool, number: FieldId) -> Option<&FieldInfo>
    ensures { option_copied result ≡ slice_get (of_kind is_static fields.now) number }
{
    let mut left = number;
    for field in fields {
        if field.is_static == is_static {
            if left == 0 {
                return Some(field);
            }
            left -= 1;
        }
    }
    None
}

impl Program {
    fn field_in(&self, is_static: bool, class: u32, number: FieldId) -> Option<&FieldInfo>
        ensures { option_copied result ≡ spec.field_in is_static (slice_get self.now.classes class) number }
    {
        match self.classes.get(class as usize) {
            Some(info) => field_of_kind(info.fields.as_slice(), is_static, number),
            None => None,
        }
    }

    fn declared_field(&self, kind: ObjKind, number: FieldId) -> Option<&FieldInfo>
        ensures { option_copied result ≡ spec.declared_field self.now kind number }
    {
        match kind {
            ObjKind::Holder(class) => self.field_in(true, class, number),
            ObjKind::Made(class) => self.field_in(false, class, number),
            ObjKind::Plain => None,
        }
    }

    fn field_of_object(&self, objects: &Heap, object: u32, number: FieldId) -> Option<&FieldInfo>
        ensures { option_copied result ≡ spec.field_of_object self.now (slice_get objects.now object) number }
    {
        match objects.as_slice().get(object as usize) {
            Some(object) => self.declared_field(object.kind, number),
            None => None,
        }
    }

    fn access_to(&self, objects: &Heap, object: u32, field: FieldId, write: bool) -> Option<Access>
        ensures { result ≡ spec.access_to self.now objects.now object field write }
    {
        match self.field_of_object(objects, object, field) {
            Some(info) if !info.is_final => Some(Access {
                object,
                field,
                write,
            }),
            _ => None,
        }
    }

    fn access_on(
        &self,
        objects: &Heap,
        base: Option<Value>,
        field: FieldId,
        write: bool,
    ) -> Option<Access>
        ensures { result ≡ spec.access_on self.now objects.now base field write }
    {
        match base {
            Some(Value::Ref(object)) => self.access_to(objects, object, field, write),
            _ => None,
        }
    }

    fn access_of(&self, objects: &Heap, temps: &Stack<Value>, plain: Plain) -> Option<Access>
        ensures { result ≡ spec.access_of self.now objects.now temps.now plain }
    {
        match plain {
            Plain::Field(field) => self.access_on(objects, temps.beneath(0).copied(), field, false),
            Plain::FieldKeep(field) => {
                self.access_on(objects, temps.beneath(0).copied(), field, false)
            }
            Plain::PutField(field) => {
                self.access_on(objects, temps.beneath(1).copied(), field, true)
            }
            Plain::Static(class, field) => self.access_to(objects, class, field, false),
            Plain::PutStatic(class, field) => self.access_to(objects, class, field, true),
            _ => None,
        }
    }

    fn access_in(&self, objects: &Heap, call: &Call) -> Option<Access>
        ensures { result ≡ spec.access_by self.now objects.now call.now.temps (spec.first_plain call.now.rest) }
    {
        match call.rest.first_plain() {
            Some(plain) => self.access_of(objects, &call.temps, plain),
            None => None,
        }
    }

    fn access_by(&self, objects: &Heap, thread: &Thread) -> Option<Access>
        ensures { result ≡ spec.access_in self.now objects.now thread.now.mode (slice_get thread.now.calls 0) }
    {
        match thread.mode {
            Mode::Running => match thread.calls.beneath(0) {
                Some(call) => self.access_in(objects, call),
                None => None,
            },
            _ => None,
        }
    }
}

/// The field that the next step of the thread reads or writes; `None` exactly where the thread isn't
/// there or isn't running, or its next instruction is no read or write of a field that isn't final,
/// or the base is null. It takes no memory.
pub fn next_access(program: &Program, config: &Config, thread: u32) -> Option<Access>
    ensures { result ≡ spec.next_access program.now config.now thread }
{
    match config.threads.as_slice().get(thread as usize) {
        Some(now) => program.access_by(&config.objects, now),
        None => None,
    }
}
