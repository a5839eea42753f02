/// What is known of a region's chain of parents: nothing; that it is climbed now; that it reaches no
/// root; or that it reaches one.
#[derive(Clone, Copy, Debug)]
pub(crate) enum ChainState {
    Fresh,
    Passing,
    Lost,
    Rooted,
}
