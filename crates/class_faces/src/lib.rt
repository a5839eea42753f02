//! What other units see of a class's fields and members: their keys, types and parameters. It knows
//! the trees of the Java subset, and nothing of annotations and promises.
#![tactic(auto)]

mod assigned;
mod face;
mod faces;
mod key;
mod laws;

pub use face::{FaceTy, FieldFace, MemberFace, ParamFace};
pub use faces::{face_ty, field_faces, is_static, member_faces, named_params};
pub use key::{member_key, member_keys, text_of};
pub use laws::{keys_differ, keys_tell_classes, names_stay, same_faces};
