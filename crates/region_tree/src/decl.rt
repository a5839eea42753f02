ghost use Rattle.std.specs.Prelude.{◌≡◌, IfOk};

use desk_base::Name;
use std::alloc::AllocError;

/// A region that a class declares, with the parent that is named, if one is.
#[derive(Debug, PartialEq, Eq, Drop)]
pub struct RegionDecl {
    pub name: Name,
    pub parent: Option<Name>,
    pub is_static: bool,
}

impl RegionDecl {
    /// The region of that name, parent and kind.
    pub fn copied(
        name: &Name,
        parent: &Option<Name>,
        is_static: bool,
    ) -> Result<RegionDecl, AllocError>
        ensures { IfOk result (λ decl. decl ≡ record { name = name.now; parent = parent.now; is_static = is_static }) }
    {
        let name = name.clone()?;
        let parent = match parent {
            Some(parent) => Some(parent.clone()?),
            None => None,
        };
        Ok(RegionDecl {
            name,
            parent,
            is_static,
        })
    }
}

impl Clone for RegionDecl {
    ghost is_clone = { λ decl copy. copy ≡ decl };

    fn clone(&self) -> Result<RegionDecl, AllocError> {
        RegionDecl::copied(&self.name, &self.parent, self.is_static)
    }
}

/// A field with the region that it is put in, if one is named.
#[derive(Debug, PartialEq, Eq, Drop)]
pub struct FieldPut {
    pub field: Name,
    pub region: Option<Name>,
    pub is_static: bool,
}
