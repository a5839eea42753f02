use desk_base::{Name, PromiseKey};

/// By what a lock of a class is held: the object itself, a final field of it, the class, or a final
/// static field of the class.
#[derive(Drop)]
pub enum Holder {
    This,
    Field(Name),
    Class,
    Static(Name),
}

/// Which lock: the class that is to declare it, its name, and whether it is static. Such a lock need
/// not be there.
#[derive(Drop)]
pub struct LockName {
    pub class: Name,
    pub name: Name,
    pub is_static: bool,
}

/// A RegionLock promise that stands: the lock, and by what it is held.
#[derive(Drop)]
pub struct Guard {
    pub key: PromiseKey,
    pub lock: LockName,
    pub holder: Holder,
}

/// For whom a lock is required: nobody, as a static one is, the unit's `this`, or a parameter by its
/// number from 0.
#[derive(Drop)]
pub enum Base {
    Nobody,
    This,
    Param(u32),
}

/// A RequiresLock promise that stands: the lock that is required and for whom, and by what it is held
/// where there is such a lock.
#[derive(Drop)]
pub struct Need {
    pub key: PromiseKey,
    pub lock: LockName,
    pub base: Base,
    pub holder: Option<Holder>,
}
