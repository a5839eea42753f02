ghost use Rattle.std.specs.Prelude.{◌≡◌, option_and_then};
ghost use Rattle.std.specs.List.{slice_get};
ghost use Rattle.std.specs.Option.{option_copied};

use desk_base::Items;

/// The item at a place, where there is one.
pub(crate) fn item_at<'a, T>(items: &'a Items<T>, place: Option<&usize>) -> Option<&'a T>
    ensures { option_copied result ≡ option_and_then (slice_get items.now) (option_copied place.entry) }
{
    items.get(*place?)
}
