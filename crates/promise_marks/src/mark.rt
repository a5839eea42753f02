use promise_grammar::{PromiseKind, PromiseTree, Shared};

/// A promise annotation: the parameter that it stands at, by its number from 0, or `None` where it
/// stands at the unit itself; its kind; and the tree of its content, or `None` where no promise of
/// the kind spells the content or its elements are more than one string.
#[derive(Drop)]
pub struct Mark {
    pub param: Option<usize>,
    pub kind: PromiseKind,
    pub tree: Option<Shared<PromiseTree>>,
}
