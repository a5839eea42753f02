//! What the names in an expression name, and the type of each expression: Java's expressions with
//! spans become bound ones with numbers of tokens, and what is found and consulted on the way is told.
//! It knows types by a look-up, and nothing of statements, units or promises.
#![tactic(auto)]

mod before;
mod bound;
mod call;
mod field;
mod fit;
mod grounds;
mod literal;
mod method;
mod name;
mod operator;
mod places;
mod stamp;

pub use bound::bind_expr;
pub use fit::faulted;
pub use grounds::Ground;
pub use literal::int_value;
pub use places::Places;
pub use stamp::{faulty, judged_given, judged_type, sound, type_of, unless_bad, used};
