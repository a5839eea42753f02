ghost use Rattle.std.specs.Prelude.{◌≡◌, ◌++◌, map, IfOk, OnOk};
ghost use Rattle.tree_places.specs.Numbers.{number_of};
ghost use Rattle.views.specs.Face.{face};
ghost use Rattle.views.specs.Looks.{standing_at};
ghost use Rattle.unit_rules.specs.Given.{all_written, begun as places_begun};
ghost use Rattle.unit_rules.specs.Headers as spec;

use crate::annotations::header_begins;
use crate::assumed::put_assumptions;
use crate::given::{Written, begun, header_annotations};
use crate::implements::put_implements;
use bound_tree::{BoundTree, Part, Word};
use desk_base::{Items, OutOfMemory, Text};
use expression_binding::Places;
use java_tree::{ClassTree, Lexeme};
use name_rules::Note;
use promise_marks::Mark;
use std::alloc::Global;
use views::View;

fn words(alloc: Global, places: &Places<'_>, names: &[Lexeme]) -> Result<Items<Word>, OutOfMemory>
    ensures { IfOk result (λ words. words ≡ map (spec.word_of (number_of places.now)) names.now) }
{
    let mut words = Items::new(alloc);
    for name in names {
        words.push(Word {
            at: places.place(name.span),
            name: name.text.clone()?,
        })?;
    }
    Ok(words)
}

fn tree_with(
    alloc: Global,
    view: &View<'_>,
    places: &Places<'_>,
    class: &ClassTree,
    key: &Text,
    annotations: &[Written<'_>],
) -> Result<BoundTree, OutOfMemory>
    ensures { IfOk result (λ tree. tree ≡ spec.header_tree_with (face view.now) (number_of places.now) class.now key.now (all_written annotations.now)) }
{
    let promises = view.standing_at(&class.name.text, key);
    let standing = begun(alloc, annotations, &promises)?;
    let names = words(alloc, places, class.implements.as_slice())?;
    Ok(BoundTree {
        class: class.name.text.clone()?,
        annotations: header_begins(alloc, places, class)?,
        standing,
        part: Part::Header(names),
    })
}

/// The header of a class or interface, by its annotations, bound. What is found and consulted is put
/// behind the notes.
pub fn bind_header(
    alloc: Global,
    view: &View<'_>,
    places: &Places<'_>,
    class: &ClassTree,
    key: &Text,
    marks: &[Mark],
    notes: &mut Items<Note>,
) -> Result<BoundTree, OutOfMemory>
    ensures tree { IfOk result (λ tree. tree ≡ spec.header_tree (face view.now) (number_of places.now) class.now key.now marks.now) }
    ensures notes { OnOk result (notes.new ≡ notes.old ++ spec.header_notes (face view.now) (number_of places.now) class.now marks.now) }
{
    let begins = header_begins(alloc, places, class)?;
    let annotations = header_annotations(alloc, class, marks, begins.as_slice())?;
    let name = &class.name.text;
    put_implements(
        alloc,
        view,
        places,
        name,
        class.implements.as_slice(),
        notes,
    )?;
    put_assumptions(alloc, view, annotations.as_slice(), notes)?;
    tree_with(alloc, view, places, class, key, annotations.as_slice())
}
