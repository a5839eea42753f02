use crate::lock::Need;
use desk_base::{Items, Name, PromiseKey};

/// A method of an interface that a class implements, with the locks that it requires.
#[derive(Drop)]
pub struct Above {
    pub interface: Name,
    pub needs: Items<Need>,
}

/// What a unit is to the rules that ask for no place in its code: a method with those that it
/// implements, in the order of the interfaces; a main; a field that stands first of its name, with the
/// promise that its value is unique; or nothing of these.
#[derive(Drop)]
pub enum Role {
    Plain,
    Method(Items<Above>),
    Main,
    UniqueField {
        class: Name,
        name: Name,
        unique: PromiseKey,
    },
}
