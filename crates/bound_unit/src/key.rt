ghost use Rattle.std.specs.Prelude.{◌≡◌, IfOk};
ghost use Rattle.views.specs.Looks as look;

use class_faces::member_key as key_of;
use desk_base::{Name, OutOfMemory, Text};
use std::alloc::Global;

/// The key of the first member of a class with the name and so many parameters: `C.m/2`, and of a
/// constructor, whose name is `new`, `C.new/2`.
pub fn member_key(
    alloc: Global,
    class: &Name,
    name: &[u8],
    count: usize,
) -> Result<Text, OutOfMemory>
    ensures { IfOk result (λ key. key ≡ look.member_key class.now name.now count) }
{
    key_of(alloc, class.as_slice(), name, Some(count), 1)
}
