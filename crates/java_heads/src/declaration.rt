/// What modifiers stand before.
#[derive(Clone, Copy, Debug, PartialEq, Eq)]
pub enum Declaration {
    Class,
    Interface,
    Field,
    Method,
    Sig,
    Ctor,
    Main,
    Param,
}
