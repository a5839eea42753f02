use desk_base::Name;

/// A lock of a class that stands.
#[derive(Drop)]
pub struct Lock {
    pub name: Name,
    pub is_static: bool,
    pub region: Name,
}

/// What a lock asks of the field that it is held by.
#[derive(Clone, Copy)]
pub(crate) struct LockField {
    pub(crate) is_static: bool,
    pub(crate) lock_form: bool,
}
