ghost use Rattle.std.specs.Prelude.{◌≡◌, ◌≢◌, ◌↔◌, ◌<◌, ◌^◌, ◌++◌, ℕ, IfOk, IsTrue, OnOk, MatchOption, decimal, map};
ghost use Rattle.std.specs.Option.{option_copied};
ghost use Rattle.promise_scrub.specs.Verdicts.{numbered};
ghost use Rattle.views.specs.Face.{face};
ghost use Rattle.unit_judge.specs.Promises as spec;

use bound_unit::BoundUnit;
use desk_base::{OutOfMemory, Text};
use itoa::Buffer;
use promise_scrub::{Aside, Standing};
use sqlite_items::at as item;
use std::alloc::Global;
use unit_findings::UnitPromise;
use views::{UnitPromises, View};

fn is_written(digits: &str, number: usize) -> bool
    ensures { IsTrue result ↔ (digits.now ≡ decimal number) }
{
    let mut buffer = Buffer::new();
    let written = buffer.format(number);
    digits == written
}

/// The number whose decimals a text is.
fn plain_number(digits: &str) -> Option<usize>
    ensures { MatchOption result ((k : ℕ) → k < 2 ^ 64 → digits.now ≢ decimal k) (λ k. digits.now ≡ decimal k) }
{
    match digits.parse::<usize>() {
        Ok(number) => {
            if is_written(digits, number) {
                Some(number)
            } else {
                None
            }
        }
        Err(_) => None,
    }
}

/// The number that a detail says behind its sign.
fn number_in(detail: &Text) -> Option<usize>
    ensures { MatchOption result ((k : ℕ) → k < 2 ^ 64 → detail.now ≢ numbered k) (λ k. detail.now ≡ numbered k) }
{
    match detail.as_str().strip_prefix('#') {
        Some(digits) => plain_number(digits),
        None => None,
    }
}

/// The token at which the annotation of a number, from 1, begins.
fn place_at(places: &[u32], number: usize) -> u32
    ensures { result ≡ spec.place_at places.now number }
{
    if number == 0 {
        return 1;
    }
    match item(places, number - 1) {
        Some(place) => *place,
        None => 1,
    }
}

/// The token at which the annotation begins that a detail numbers.
fn place_of(places: &[u32], detail: &Text) -> u32
    ensures { result ≡ spec.place_from detail.now 1 places.now }
{
    match number_in(detail) {
        Some(number) => place_at(places, number),
        None => 1,
    }
}

fn standing_promise(promise: &Standing) -> Result<UnitPromise, OutOfMemory>
    ensures { IfOk result (λ made. made ≡ spec.standing_promise promise.now) }
{
    Ok(UnitPromise {
        key: promise.key.clone()?,
        place: 1,
        fault: None,
    })
}

fn put_promise(promise: Option<&Standing>, out: &mut Vec<UnitPromise>) -> Result<(), OutOfMemory>
    ensures { OnOk result (out.new.items ≡ out.old.items ++ spec.promise_if (option_copied promise.entry)) }
{
    if let Some(promise) = promise {
        out.push(standing_promise(promise)?)?;
    }
    Ok(())
}

fn put_standing(promises: &UnitPromises<'_>, out: &mut Vec<UnitPromise>) -> Result<(), OutOfMemory>
    ensures { OnOk result (out.new.items ≡ out.old.items ++ map spec.standing_promise promises.now) }
{
    for at in 0..promises.len() {
        put_promise(promises.get(at), out)?;
    }
    Ok(())
}

fn aside_promise(places: &[u32], aside: &Aside) -> Result<UnitPromise, OutOfMemory>
    ensures { IfOk result (λ made. made ≡ spec.aside_promise places.now aside.now) }
{
    let place = place_of(places, &aside.key.detail);
    Ok(UnitPromise {
        key: aside.key.clone()?,
        place,
        fault: Some(aside.code),
    })
}

fn put_aside(
    unit: &Text,
    places: &[u32],
    aside: &Aside,
    out: &mut Vec<UnitPromise>,
) -> Result<(), OutOfMemory>
    ensures { OnOk result (out.new.items ≡ out.old.items ++ spec.aside_if unit.now places.now aside.now) }
{
    if aside.key.target == *unit {
        out.push(aside_promise(places, aside)?)?;
    }
    Ok(())
}

fn put_asides(
    unit: &Text,
    places: &[u32],
    asides: &[Aside],
    out: &mut Vec<UnitPromise>,
) -> Result<(), OutOfMemory>
    ensures { OnOk result (out.new.items ≡ out.old.items ++ spec.aside_promises unit.now places.now asides.now) }
{
    for aside in asides {
        put_aside(unit, places, aside, out)?;
    }
    Ok(())
}

/// The promises of a unit: those that stand there, then those of its class's that are set aside there.
pub(crate) fn unit_promises(
    alloc: Global,
    unit: &BoundUnit,
    view: &View<'_>,
    asides: &[Aside],
) -> Result<Vec<UnitPromise>, OutOfMemory>
    ensures { IfOk result (λ made. made.items ≡ spec.unit_promises (face view.now unit.now.tree.class) unit.now.key unit.now.tree.annotations asides.now) }
{
    let mut promises = Vec::new(alloc);
    let tree = unit.tree();
    put_standing(&view.standing_at(&tree.class, unit.key()), &mut promises)?;
    put_asides(
        unit.key(),
        tree.annotations.as_slice(),
        asides,
        &mut promises,
    )?;
    Ok(promises)
}
