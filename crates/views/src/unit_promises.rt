use promise_scrub::Standing;
use sqlite_items::at as item;
use std::marker::Model;

/// Promises that stand at a unit, in written order. Contracts see the list of them.
#[derive(Drop)]
pub struct UnitPromises<'a> {
    standing: &'a [Standing],
    places: &'a [usize],
}

impl<'a> Model for UnitPromises<'a> {
    ghost use Rattle.std.specs.Prelude.{List};
    ghost use Rattle.std.specs.Coded.{coded_list};
    ghost use Rattle.promise_scrub.specs.declared.surface.Standing.{Standing as Promise};
    ghost use Rattle.promise_scrub.specs.contracts.surface.Standing as promise;
    ghost use Rattle.views.specs.Gathered.{AreThere, gathered};

    ghost Value = { List Promise };

    ghost coded = { coded_list promise.the_row.coded };

    ghost view = { λ p. gathered p.standing.now p.places.now };

    ghost invariant = { λ p. AreThere p.standing.now p.places.now };
}

impl<'a> UnitPromises<'a> {
    ghost use Rattle.std.specs.Prelude.{◌≡◌, ◌==◌, length};
    ghost use Rattle.std.specs.List.{slice_get};
    ghost use Rattle.std.specs.Option.{option_copied};
    ghost use Rattle.views.specs.Gathered.{AreThere, gathered};

    /// Those at these places of a list.
    pub(crate) fn new(standing: &'a [Standing], places: &'a [usize]) -> UnitPromises<'a>
        requires { AreThere standing.now places.now }
        ensures { result ≡ gathered standing.now places.now }
    {
        UnitPromises { standing, places }
    }

    /// How many there are.
    pub fn len(&self) -> usize
        ensures { result ≡ length self.now }
    {
        self.places.len()
    }

    pub fn is_empty(&self) -> bool
        ensures { result ≡ (length self.now == 0) }
    {
        self.len() == 0
    }

    /// The promise at the place, where there is one.
    pub fn get(&self, at: usize) -> Option<&'a Standing>
        ensures { option_copied result ≡ slice_get self.now at }
    {
        match item(self.places, at) {
            Some(place) => item(self.standing, *place),
            None => None,
        }
    }
}
