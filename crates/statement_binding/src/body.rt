ghost use Rattle.std.specs.Prelude.{◌≡◌, ◌++◌, map, IfOk, OnOk};
ghost use Rattle.bound_tree.specs.Reading.{statement_of};
ghost use Rattle.expression_binding.specs.Bound.{grounded};
ghost use Rattle.tree_places.specs.Numbers.{number_of};
ghost use Rattle.tree_places.specs.PlainStmt.{stmts};
ghost use Rattle.tree_places.specs.Plain.{plain_block, plain_item};
ghost use Rattle.statement_binding.specs.Bodies as spec;

use crate::ends::block_never_ends;
use crate::locals::Locals;
use crate::parts::block as block_of;
use crate::statement::bind_items;
use crate::top::bind_top_items;
use bound_tree::Stmt;
use class_faces::FaceTy;
use desk_base::{Items, OutOfMemory};
use expression_binding::Ground;
use java_tree::{Block, BlockItem};
use name_rules::{Note, Scope, TypeTable, put_finding_if};
use result_records::FindingCode;

/// What the head of a member says to its body: the declared type of what is returned, if something is,
/// whether it is a constructor, which returns nothing and may write final fields, and the number of the
/// member's name.
#[derive(Clone, Copy)]
pub struct MemberHead<'m> {
    pub result: Option<&'m FaceTy>,
    pub is_constructor: bool,
    pub name_at: u32,
}

fn bind_all<T: TypeTable>(
    site: &Ground<'_, T>,
    head: MemberHead<'_>,
    locals: &mut Locals,
    items: &[BlockItem],
    notes: &mut Items<Note>,
) -> Result<Items<Stmt>, OutOfMemory>
    ensures made { IfOk result (λ made. map statement_of made ≡ (spec.items_done (grounded (T.types site.now.types.now) site.now.class.now site.now.is_static) (spec.shown_head head.entry) locals.old (stmts (map (plain_item (number_of site.now.places.now)) items.now))).made) }
    ensures notes { OnOk result (notes.new ≡ notes.old ++ (spec.items_done (grounded (T.types site.now.types.now) site.now.class.now site.now.is_static) (spec.shown_head head.entry) locals.old (stmts (map (plain_item (number_of site.now.places.now)) items.now))).notes) }
{
    if head.is_constructor {
        bind_top_items(site, locals, items, notes)
    } else {
        bind_items(site, head.result, locals, items, notes)
    }
}

/// Puts the finding of a body that has to return a value and can end normally.
fn put_end(
    head: MemberHead<'_>,
    block: &Block,
    places: &expression_binding::Places<'_>,
    notes: &mut Items<Note>,
) -> Result<(), OutOfMemory>
    ensures { OnOk result (notes.new ≡ notes.old ++ spec.end_notes (spec.shown_head head.entry) (plain_block (number_of places.now) block.now)) }
{
    let missing = head.result.is_some() && !block_never_ends(block);
    put_finding_if(notes, missing, FindingCode::BadReturn, head.name_at)?;
    Ok(())
}

/// The body of a method, a constructor or a main, under its parameters, which are in scope in all of it.
/// The first local gets the number. What is found and consulted is put behind the notes in written order.
#[tactic(auto, using(crate::proofs::Appends::appends))]
pub fn bind_body<T: TypeTable>(
    site: &Ground<'_, T>,
    head: MemberHead<'_>,
    scope: Scope,
    first_local: u32,
    block: &Block,
    notes: &mut Items<Note>,
) -> Result<Stmt, OutOfMemory>
    ensures made { IfOk result (λ made. statement_of made ≡ (spec.body (grounded (T.types site.now.types.now) site.now.class.now site.now.is_static) (spec.shown_head head.entry) scope first_local (plain_block (number_of site.now.places.now) block.now)).made) }
    ensures notes { OnOk result (notes.new ≡ notes.old ++ (spec.body (grounded (T.types site.now.types.now) site.now.class.now site.now.is_static) (spec.shown_head head.entry) scope first_local (plain_block (number_of site.now.places.now) block.now)).notes) }
{
    let mut locals = Locals {
        scope,
        next: first_local,
    };
    let made = bind_all(site, head, &mut locals, block.items.as_slice(), notes)?;
    put_end(head, block, site.places, notes)?;
    Ok(block_of(made))
}
