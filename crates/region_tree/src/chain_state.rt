/// What is known of a region while chains of parents are climbed: nothing; that it is on the path
/// that is climbed now; that its chain reaches no root; or that it does, with a number that is
/// greater than that of its parent.
#[derive(Clone, Copy, Debug)]
pub(crate) enum ChainState {
    Fresh,
    Passing,
    Lost,
    Ranked(usize),
}
