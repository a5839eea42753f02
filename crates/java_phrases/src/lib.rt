//! What the readers of the Java subset share: phrases, parsers of one token and their sequences, the
//! cursor over tokens, and types. It knows nothing of expressions, statements or members.
#![tactic(auto)]

mod error;
mod tokens;
mod types;

pub use error::SyntaxError;
pub use tokens::Tokens;
pub use types::read_type;
