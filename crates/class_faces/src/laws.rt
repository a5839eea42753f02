//! What follows from the definitions alone: the calls do nothing, and their contracts are laws.

ghost use Rattle.std.specs.Prelude.{◌≡◌, ◌↔◌, ℕ, List, IsTrue};
ghost use Rattle.java_tree.specs.declared.file.ClassTree.{ClassTree};
ghost use Rattle.class_faces.specs.declared.face.FaceTy.{FaceTy};
ghost use Rattle.class_faces.specs.declared.face.FieldFace.{FieldFace};
ghost use Rattle.class_faces.specs.declared.face.ParamFace.{ParamFace};
ghost use Rattle.class_faces.specs.Keys.{Distinct, HasNames, IsAmong, IsAsWritten, unit_keys};
ghost use Rattle.class_faces.specs.Same.{same_field, same_param, same_ty};

/// A name of ASCII is its own text.
pub fn names_stay()
    ensures { (name : List ℕ) → IsAsWritten name }
{}

/// No two units of a class have one key, where its names are as the grammar has them.
pub fn keys_differ()
    ensures { (class : ClassTree) → HasNames class → Distinct (unit_keys class) }
{}

/// A key tells the class that it is of: two classes that share a key have one name.
pub fn keys_tell_classes()
    ensures { (a b : ClassTree) (key : List ℕ) → HasNames a → HasNames b → IsAmong key (unit_keys a) → IsAmong key (unit_keys b) → a.name.text ≡ b.name.text }
{}

/// `==` of types, fields and parameters is true exactly where they are equal.
pub fn same_faces()
    ensures types { (a b : FaceTy) → IsTrue (same_ty a b) ↔ (a ≡ b) }
    ensures fields { (a b : FieldFace) → IsTrue (same_field a b) ↔ (a ≡ b) }
    ensures params { (a b : ParamFace) → IsTrue (same_param a b) ↔ (a ≡ b) }
{}
