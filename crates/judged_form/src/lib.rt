//! Which types are judged so far: those whose surfaces have only promises about locks and regions, and
//! nothing that is taken on trust. It knows surfaces, and nothing of findings.
#![tactic(auto)]

mod form;

pub use form::{are_judged, is_judged};
