ghost use Rattle.std.specs.Prelude.{◌≡◌};
ghost use Rattle.views.specs.Face.{face};
ghost use Rattle.lock_check.specs.Under as spec;

use desk_base::Name;
use views::View;

/// Whether the first field of the name is there and its region is under the region: a chain of parents
/// leads from the one to the other. It takes no memory.
pub fn field_is_under(view: &View<'_>, class: &Name, field: &Name, region: &Name) -> bool
    ensures { result ≡ spec.field_is_under (face view.now class.now) field.now region.now }
{
    view.field_is_under(class, field, region)
}
