//! The types of a program, and what units that are typed by names are by numbers that fit these names.
//! It knows typed units, core code and how a program numbers names, and nothing of what binds a unit;
//! that the numbers of a program fit isn't shown here.
#![tactic(auto)]

mod laws;

pub use laws::typed_names_have_typed_numbers;
