//! What every layer of the desk shares: byte strings, keys of promises, limits, the traits of the
//! outside with their counts of faults, their stand-ins in memory, and the step counter. It knows
//! nothing of Java, of findings or of verdicts.
#![tactic(auto)]

mod bytes;
mod calls;
mod keeper;
mod key;
mod limit;
mod memory;
mod name;
mod sink;
mod source;
mod span;
mod steps;
mod text;

pub use bytes::Bytes;
pub use calls::CallNumbers;
pub use keeper::{Keeper, MemKeeper};
pub use key::{PromiseKey, PromiseName};
pub use limit::LimitName;
pub use memory::OutOfMemory;
pub use name::Name;
pub use sink::{MemSink, Sink, SinkFault};
pub use source::{MemSource, Source, SourceFault};
pub use span::Span;
pub use sqlite_items::{Boxed, Items};
pub use steps::Steps;
pub use text::Text;
