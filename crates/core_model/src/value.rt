/// A value of a local, a field or a temporary. A text is named by its number, an object by its own.
#[derive(Clone, Copy, Debug, PartialEq, Eq)]
pub enum Value {
    Int(i32),
    Bool(bool),
    Str(u32),
    Null,
    Ref(u32),
}
