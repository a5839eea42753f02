//! Core code of bound trees: what each construct of a unit becomes, with names in the place of
//! numbers, and the laws that tie what the analyses ask of a tree to its code. It knows bound trees
//! and core code, and nothing of Java's text, of promises or of verdicts; what makes a tree, and what
//! numbers the names of a program, stands above it.
#![tactic(auto)]

mod code;
mod expressions;
mod instr;
mod laws;
mod monitor;
mod put;
mod statements;
mod steps;
mod unit;

pub use code::{NamedCode, NamedInstr};
pub use instr::{Constant, NamedClaim, NamedKnown, NamedNote, NamedPlain};
pub use laws::{
    code_acts_as_its_tree, code_flows_as_its_tree, operands_come_from_what_they_name,
    typed_trees_have_typed_code,
};
pub use steps::places;
pub use unit::code_of;
