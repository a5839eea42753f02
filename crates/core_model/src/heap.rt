ghost use Rattle.std.specs.Prelude.{◌≡◌, ◌++◌, [], ◌∷◌, length, slice_get, OnOk, IfOk};
ghost use Rattle.core_model.specs.Objects as spec;

use crate::instr::{ClassId, FieldId};
use crate::object::Obj;
use crate::value::Value;
use desk_base::OutOfMemory;
use std::alloc::Global;
use std::marker::Model;

/// The objects of a configuration. Contracts see the list of them.
#[derive(Drop)]
pub struct Heap {
    objects: Vec<Obj>,
}

impl Model for Heap {
    ghost use Rattle.std.specs.Prelude.{List};
    ghost use Rattle.core_model.specs.declared.object.Obj.{Obj};

    ghost Value = { List Obj };

    ghost view = { λ h. h.objects.items };
}

impl Heap {
    /// No objects. It takes no memory.
    pub fn new(alloc: Global) -> Heap
        ensures { result ≡ [] }
    {
        Heap {
            objects: Vec::new(alloc),
        }
    }

    pub fn as_slice(&self) -> &[Obj]
        ensures { result.now ≡ self.now }
    {
        self.objects.as_slice()
    }

    /// The number of the next object. There is none where 2^32 objects are there, which counts as
    /// want of memory.
    pub fn next(&self) -> Result<u32, OutOfMemory>
        ensures { IfOk result (λ n. n ≡ length self.now) }
    {
        u32::try_from(self.objects.len()).map_err(|_| OutOfMemory)
    }

    pub fn push(&mut self, object: Obj) -> Result<(), OutOfMemory>
        ensures { OnOk result (self.new ≡ self.old ++ object ∷ []) }
    {
        self.objects.push(object)?;
        Ok(())
    }

    /// The object's field, if there is one.
    pub fn field(&self, object: u32, field: FieldId) -> Option<Value>
        ensures { result ≡ spec.field_at self.now object field }
    {
        match self.objects.get(object as usize) {
            Some(object) => object.fields.as_slice().get(field as usize).copied(),
            None => None,
        }
    }

    /// The class that the object was made of.
    pub fn class_of(&self, object: u32) -> Option<ClassId>
        ensures { result ≡ spec.class_of (slice_get self.now object) }
    {
        match self.objects.get(object as usize) {
            Some(object) => object.kind.made_of(),
            None => None,
        }
    }

    /// Whether another thread owns the object's monitor.
    pub fn blocks(&self, thread: u32, object: u32) -> bool
        ensures { result ≡ spec.blocks thread (slice_get self.now object) }
    {
        match self.objects.get(object as usize) {
            Some(object) => object.is_owned_by_other(thread),
            None => false,
        }
    }

    /// Writes the field; where there is none nothing changes.
    pub fn put(&mut self, object: u32, field: FieldId, value: Value)
        ensures { self.new ≡ spec.changed self.old object (λ o. spec.with_field o field value) }
    {
        if (object as usize) < self.objects.len() {
            self.objects[object as usize].put(field, value);
        }
    }

    /// The thread enters the object's monitor, the first time or again. More than 2^32 - 1 entries
    /// count as want of memory.
    pub fn enter(&mut self, thread: u32, object: u32) -> Result<(), OutOfMemory>
        ensures { OnOk result (self.new ≡ spec.changed self.old object (spec.entered thread)) }
    {
        if (object as usize) < self.objects.len() {
            self.objects[object as usize].enter(thread)?;
        }
        Ok(())
    }

    /// Counts the object's monitor down; at 0 it is free.
    pub fn exit(&mut self, object: u32)
        ensures { self.new ≡ spec.changed self.old object spec.exited }
    {
        if (object as usize) < self.objects.len() {
            self.objects[object as usize].exit();
        }
    }

    pub fn copy(&self, alloc: Global) -> Result<Heap, OutOfMemory>
        ensures { IfOk result (λ copy. copy ≡ self.now) }
    {
        let mut objects = Vec::new(alloc);
        for object in self.objects.as_slice() {
            objects.push(object.copy(alloc)?)?;
        }
        Ok(Heap { objects })
    }
}
