//! Types of core code: when a program and a configuration are well typed, and the laws that steps keep
//! this. It knows core code and its laws, and nothing of Java's text or of promises.
#![tactic(auto)]

mod ending;
mod growing;
mod origins;
mod reaching;
mod refusing;
mod sample;
mod spared;
mod typing;
mod values;

pub use ending::threads_end_by_faults;
pub use growing::code_is_typed_by_parts;
pub use origins::origins_are_kept;
pub use reaching::fields_that_are_reached_are_declared;
pub use refusing::ill_typed_code_is_refused;
pub use sample::a_counter_is_well_typed;
pub use spared::fields_that_no_code_writes_stay;
pub use typing::types_are_kept;
pub use values::values_name_objects_that_are_there;
