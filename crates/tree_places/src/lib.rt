//! Trees wherever they stand: without their places, with the numbers of tokens for their places, and as
//! plain data with such numbers. That alike tokens give one such tree is here, once for all that is told
//! of units. It knows nothing of names and types.
#![tactic(auto)]

mod laws;
mod token_numbers;

pub use laws::{
    alike_texts, alike_tokens, alike_units, moved_units, one_unit, plain_moved, units_are_placed,
};
pub use token_numbers::TokenNumbers;
