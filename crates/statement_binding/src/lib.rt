//! What the names in a member's body name, and what is wrong in it: Java's statements with spans become
//! bound ones with numbers of tokens, and what is found and consulted on the way is told. It knows the
//! types by a look-up and the parameters as names in scope, and nothing of members, units or promises.
#![tactic(auto)]

mod action;
mod body;
mod declared;
mod ends;
mod finals;
mod head;
mod initial;
mod locals;
mod parts;
mod statement;
mod top;
mod write;

pub use body::{MemberHead, bind_body};
pub use declared::put_declared;
pub use initial::bind_initial;
