//! Reading the parts of a file in which no statement stands: qualified names, annotations, modifiers,
//! parameters, initializers, the package and import lines, headers of types, headings of members, and
//! members without a body. It knows nothing of statements or of whole files, nor of names and types.
#![tactic(auto)]

mod annotation;
mod declaration;
mod header;
mod heading;
mod laws;
mod lines;
mod member;
mod modifiers;
mod names;
mod nest;
mod parameters;
mod reader;

pub use declaration::Declaration;
pub use header::Header;
pub use heading::{CtorHeading, Heading, MainHeading, MethodHeading, read_heading};
pub use laws::one_part;
pub use reader::{read_field, read_header, read_import, read_package, read_sig};
