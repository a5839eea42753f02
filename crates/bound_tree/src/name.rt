use desk_base::Name;

/// The type of a value. A class, an interface, Object, String and Runnable are named; `Null` is the
/// type of `null`.
#[derive(Drop)]
pub enum ValueType {
    Int,
    Boolean,
    Null,
    Named(Name),
}

/// A field that a name names: the class whose it is, its own name, whether it is final, and whether
/// it is a final Object field that begins with `new Object()`, as a lock's field must.
#[derive(Drop)]
pub struct FieldName {
    pub class: Name,
    pub name: Name,
    pub is_final: bool,
    pub is_lock: bool,
}

/// A method that a call names: the class by which it was found, its own name, and whether it has a
/// result.
#[derive(Drop)]
pub struct MemberName {
    pub class: Name,
    pub name: Name,
    pub has_result: bool,
}
