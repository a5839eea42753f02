ghost use Rattle.std.specs.Prelude.{◌≡◌};
ghost use Rattle.views.specs.Kinds.{is_declared};

/// What kind of type a name is the name of. Object, String and Runnable are types without being
/// declared.
#[derive(Clone, Copy, Debug, PartialEq, Eq)]
pub enum FaceKind {
    Class,
    Interface,
    Object,
    String,
    Runnable,
}

impl FaceKind {
    /// Whether such a type is declared: a class or an interface.
    pub fn is_declared(self) -> bool
        ensures { result ≡ is_declared self }
    {
        match self {
            FaceKind::Class | FaceKind::Interface => true,
            FaceKind::Object | FaceKind::String | FaceKind::Runnable => false,
        }
    }
}
