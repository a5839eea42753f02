//! Which promises hold together: from findings to verdicts, and to what an inconsistent promise is
//! blamed on and a contingent one rests on. It knows nothing of Java, nor of how a finding comes
//! about.
#![tactic(auto)]

mod causes;
mod flat;
mod follow;
mod graph;
mod making;
mod numbers;
mod rounds;
mod solving;
mod steps;
mod verdict;
mod verdicts;

pub use graph::Graph;
pub use making::graph_of;
pub use solving::solve;
pub use verdict::Verdict;
pub use verdicts::Verdicts;
