ghost use Rattle.std.specs.Prelude.{◌≡◌, ◌++◌, IfOk, OnOk};
ghost use Rattle.std.specs.List.{flat_map};
ghost use Rattle.views.specs.Face.{face};
ghost use Rattle.bound_unit.specs.Aboves.{above_as};
ghost use Rattle.bound_unit.specs.Asked.{above_names};
ghost use Rattle.bound_unit.specs.Implemented.{implemented as is_implemented};
ghost use Rattle.unit_rules.specs.Consulted as spec;

use bound_tree::BoundTree;
use bound_unit::{Above, implemented, member_key, put_member_names};
use desk_base::{Items, Name, OutOfMemory, Text};
use name_rules::Note;
use std::alloc::Global;
use std::collections::BTreeSet;
use views::View;

fn put_called(
    alloc: Global,
    view: &View<'_>,
    class: &Name,
    name: &Name,
    count: usize,
    names: &mut Items<Name>,
) -> Result<(), OutOfMemory>
    ensures { OnOk result (names.new ≡ names.old ++ spec.told_names (face view.now) (Note.Calls class.now name.now count)) }
{
    names.push(class.clone()?)?;
    let key = member_key(alloc, class, name.as_slice(), count)?;
    put_member_names(alloc, view, class, &key, names)
}

fn put_told(
    alloc: Global,
    view: &View<'_>,
    note: &Note,
    names: &mut Items<Name>,
) -> Result<(), OutOfMemory>
    ensures { OnOk result (names.new ≡ names.old ++ spec.told_names (face view.now) note.now) }
{
    match note {
        Note::Finding(_, _) => Ok(()),
        Note::Names(name) => {
            names.push(name.clone()?)?;
            Ok(())
        }
        Note::Calls(class, name, count) => put_called(alloc, view, class, name, *count, names),
    }
}

fn put_all_told(
    alloc: Global,
    view: &View<'_>,
    notes: &[Note],
    names: &mut Items<Name>,
) -> Result<(), OutOfMemory>
    ensures { OnOk result (names.new ≡ names.old ++ flat_map (spec.told_names (face view.now)) notes.now) }
{
    for note in notes {
        put_told(alloc, view, note, names)?;
    }
    Ok(())
}

fn put_interfaces(interfaces: &[Name], names: &mut Items<Name>) -> Result<(), OutOfMemory>
    ensures { OnOk result (names.new ≡ names.old ++ interfaces.now) }
{
    for name in interfaces {
        names.push(name.clone()?)?;
    }
    Ok(())
}

fn put_above(
    alloc: Global,
    view: &View<'_>,
    above: &Above<'_>,
    names: &mut Items<Name>,
) -> Result<(), OutOfMemory>
    ensures { OnOk result (names.new ≡ names.old ++ above_names (face view.now) (above_as above.now)) }
{
    put_member_names(alloc, view, above.interface, &above.member.key, names)
}

/// Puts those of the methods of interfaces that the unit implements.
fn put_all_above(
    alloc: Global,
    view: &View<'_>,
    key: &Text,
    tree: &BoundTree,
    names: &mut Items<Name>,
) -> Result<(), OutOfMemory>
    ensures { OnOk result (names.new ≡ names.old ++ flat_map (above_names (face view.now)) (is_implemented (face view.now) key.now tree.now)) }
{
    let aboves = implemented(alloc, view, key, tree)?;
    for above in &aboves {
        put_above(alloc, view, above, names)?;
    }
    Ok(())
}

fn all_names(
    alloc: Global,
    view: &View<'_>,
    key: &Text,
    tree: &BoundTree,
    notes: &[Note],
) -> Result<Items<Name>, OutOfMemory>
    ensures { IfOk result (λ names. names ≡ spec.all_names (face view.now) key.now tree.now notes.now) }
{
    let mut names = Items::new(alloc);
    names.push(tree.class.clone()?)?;
    put_interfaces(view.interfaces(&tree.class), &mut names)?;
    put_all_told(alloc, view, notes, &mut names)?;
    put_member_names(alloc, view, &tree.class, key, &mut names)?;
    put_all_above(alloc, view, key, tree, &mut names)?;
    Ok(names)
}

/// The names by their bytes, each once.
fn set_of(alloc: Global, mut names: Items<Name>) -> Result<BTreeSet<Name>, OutOfMemory>
    ensures { IfOk result (λ set. set.keys ≡ spec.each_in_order names) }
{
    let mut set = BTreeSet::new(alloc);
    while let Some(name) = names.pop() {
        set.insert(name)?;
    }
    Ok(set)
}

fn in_order(alloc: Global, names: Items<Name>) -> Result<Items<Name>, OutOfMemory>
    ensures { IfOk result (λ out. out ≡ spec.each_in_order names) }
{
    let mut out = Items::new(alloc);
    for name in set_of(alloc, names)? {
        out.push(name)?;
    }
    Ok(out)
}

/// The names that a unit of a key and a tree consults under a view, of what is told of it: those of its
/// class and what that implements, of the types that stand in it or that its expressions name, call,
/// pass to or get, and of the types that the promises of the unit, of the members that it calls and of
/// those that it implements name. They are in the order of their bytes, each once.
pub fn consulted_names(
    alloc: Global,
    view: &View<'_>,
    key: &Text,
    tree: &BoundTree,
    notes: &[Note],
) -> Result<Items<Name>, OutOfMemory>
    ensures { IfOk result (λ names. names ≡ spec.consulted (face view.now) key.now tree.now notes.now) }
{
    let names = all_names(alloc, view, key, tree, notes)?;
    in_order(alloc, names)
}
