ghost use Rattle.std.specs.Prelude.{◌≡◌, map, OnOk, IfOk};
ghost use Rattle.core_model.specs.Begin as spec;

use crate::calls::thread_of;
use crate::config::{Config, Gives, Mode, Thread};
use crate::heap::Heap;
use crate::instr::ClassId;
use crate::make::Filling;
use crate::object::{Obj, ObjKind};
use crate::program::{ClassInfo, MAIN, Program};
use crate::stack::Stack;
use crate::threads::Threads;
use crate::value::Value;
use desk_base::{Items, OutOfMemory};
use std::alloc::Global;

/// The holders of the classes so far, and the number of the next fresh Object.
#[derive(Drop)]
pub struct Holders {
    pub objects: Heap,
    pub next: u32,
}

impl Holders {
    fn put(&mut self, alloc: Global, info: &ClassInfo) -> Result<(), OutOfMemory>
        ensures { OnOk result (self.new ≡ spec.with_holder self.old info.now) }
    {
        let class = self.objects.next()?;
        let filling = Filling::of_fields(alloc, info.fields.as_slice(), true, self.next)?;
        let Filling { values, next } = filling;
        self.objects.push(Obj::new(ObjKind::Holder(class), values))?;
        self.next = next;
        Ok(())
    }
}

/// The objects at the beginning: the holders in order of the classes, and then the fresh Objects of
/// their static fields.
fn begun_objects(alloc: Global, classes: &[ClassInfo]) -> Result<Heap, OutOfMemory>
    ensures { IfOk result (λ objects. objects ≡ spec.begun_objects classes.now) }
{
    let Ok(first) = u32::try_from(classes.len()) else {
        return Err(OutOfMemory);
    };
    let mut holders = Holders {
        objects: Heap::new(alloc),
        next: first,
    };
    for info in classes {
        holders.put(alloc, info)?;
    }
    let Holders { mut objects, next } = holders;
    objects.push_fresh(alloc, next - first)?;
    Ok(objects)
}

/// The thread that begins with the class's main, whose argument is null; over at once where the
/// class has none.
fn begun_thread(alloc: Global, program: &Program, class: ClassId) -> Result<Thread, OutOfMemory>
    ensures { IfOk result (λ thread. thread ≡ spec.begun_thread program.now class) }
{
    let mut args = Items::new(alloc);
    args.push(Value::Null)?;
    let unit = program.unit_number(class, MAIN, 1);
    match program.call_of(alloc, unit, args, Gives::Own)? {
        Some(call) => thread_of(alloc, call),
        None => Ok(Thread {
            calls: Stack::new(alloc),
            mode: Mode::Over,
        }),
    }
}

/// The configuration that begins with one thread for each of the classes, at its main; a class may
/// be named several times. The static fields have their initial values. A 2^32nd object counts as
/// want of memory.
pub fn begin(alloc: Global, program: &Program, mains: &[ClassId]) -> Result<Config, OutOfMemory>
    ensures { IfOk result (λ c. c ≡ spec.begin program.now mains.now) }
{
    let objects = begun_objects(alloc, program.classes.as_slice())?;
    let mut threads = Threads::new(alloc);
    for class in mains {
        threads.push(begun_thread(alloc, program, *class)?)?;
    }
    Ok(Config { objects, threads })
}
