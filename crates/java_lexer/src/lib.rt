//! Cuts the text of a Java file into its tokens. It knows blanks, comments, names, numbers, strings
//! and signs, and nothing of what tokens spell together.
#![tactic(auto)]

mod error;
mod front;
mod laws;
mod lexer;
mod scan;
mod signs;
mod value;
mod words;

pub use error::LexError;
pub use laws::{one_reading, tokens_follow, tokens_spelled};
pub use lexer::lex;
pub use value::string_value;
