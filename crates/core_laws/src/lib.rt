//! Laws of the small machine, over every schedule: each of these calls does nothing, and its contract
//! is a law. It knows core code, its configurations and `Step`, and nothing of Java's text, of
//! promises or of types.
#![tactic(auto)]

mod code;
mod constructors;
mod guards;
mod kinds;
mod monitors;
mod notes;
mod threads;
mod waiting;

pub use code::known_code_stays_known;
pub use constructors::constructors_have_their_object;
pub use guards::guarded_reads_are_owned;
pub use kinds::objects_keep_their_kinds;
pub use monitors::marks_tell_owners;
pub use notes::notes_change_nothing;
pub use threads::other_threads_stay;
pub use waiting::waiting_changes_nothing;
