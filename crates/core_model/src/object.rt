ghost use Rattle.std.specs.Prelude.{◌≡◌, OnOk, IfOk};
ghost use Rattle.core_model.specs.Objects as spec;

use crate::instr::{ClassId, FieldId};
use crate::value::Value;
use desk_base::{Items, OutOfMemory};
use std::alloc::Global;

/// What an object is: the holder of a class, made of a class, or a fresh Object.
#[derive(Clone, Copy, Debug, PartialEq, Eq)]
pub enum ObjKind {
    Holder(ClassId),
    Made(ClassId),
    Plain,
}

/// An object: its fields, and its monitor's owner and count of entries.
#[derive(Drop)]
pub struct Obj {
    pub kind: ObjKind,
    pub fields: Items<Value>,
    pub owner: Option<u32>,
    pub count: u32,
}

impl ObjKind {
    /// The class that such an object was made of.
    pub fn made_of(self) -> Option<ClassId>
        ensures { result ≡ spec.made_of self }
    {
        match self {
            ObjKind::Made(class) => Some(class),
            _ => None,
        }
    }
}

impl Obj {
    /// An object as it begins, its monitor free.
    pub fn new(kind: ObjKind, fields: Items<Value>) -> Obj
        ensures { result ≡ spec.new_object kind fields }
    {
        Obj {
            kind,
            fields,
            owner: None,
            count: 0,
        }
    }

    /// Whether another thread owns its monitor.
    pub(crate) fn is_owned_by_other(&self, thread: u32) -> bool
        ensures { result ≡ spec.is_other thread self.now.owner }
    {
        match self.owner {
            Some(owner) => owner != thread,
            None => false,
        }
    }

    pub(crate) fn put(&mut self, field: FieldId, value: Value)
        ensures { self.new ≡ spec.with_field self.old field value }
    {
        if (field as usize) < self.fields.len() {
            self.fields.set(field as usize, value);
        }
    }

    pub(crate) fn enter(&mut self, thread: u32) -> Result<(), OutOfMemory>
        ensures { OnOk result (self.new ≡ spec.entered thread self.old) }
    {
        let Some(count) = self.count.checked_add(1) else {
            return Err(OutOfMemory);
        };
        self.count = count;
        self.owner = Some(thread);
        Ok(())
    }

    pub(crate) fn exit(&mut self)
        ensures { self.new ≡ spec.exited self.old }
    {
        self.count = self.count.saturating_sub(1);
        if self.count == 0 {
            self.owner = None;
        }
    }

    pub(crate) fn copy(&self, alloc: Global) -> Result<Obj, OutOfMemory>
        ensures { IfOk result (λ copy. copy ≡ self.now) }
    {
        Ok(Obj {
            kind: self.kind,
            fields: Items::from_slice(alloc, self.fields.as_slice())?,
            owner: self.owner,
            count: self.count,
        })
    }
}
