ghost use Rattle.std.specs.Prelude.{◌≡◌, ◌++◌, [], IfOk, OnOk};
ghost use Rattle.tree_places.specs.Numbers.{number_of};
ghost use Rattle.views.specs.Face.{face};
ghost use Rattle.binder.specs.Members as spec;
ghost use Rattle.binder.specs.Trees.{part_as};

use crate::code::{Code, bind_code, bind_main, constructor_code, method_code};
use crate::params::{put_params, put_result, result_type, value_type, variables};
use bound_tree::Part;
use class_faces::face_ty;
use desk_base::{Items, Name, OutOfMemory};
use expression_binding::{Ground, Places};
use java_tree::{Field, Main, MemberTree, Sig};
use name_rules::{Note, Scope};
use statement_binding::{bind_initial, put_declared};
use std::alloc::Global;
use unit_rules::ViewTypes;
use views::View;

fn bind_field(
    site: &Ground<'_, ViewTypes<'_>>,
    field: &Field,
    notes: &mut Items<Note>,
) -> Result<Part, OutOfMemory>
    ensures part { IfOk result (λ part. part_as part ≡ (spec.field_made (face site.now.types.now) (number_of site.now.places.now) field.now).part) }
    ensures notes { OnOk result (notes.new ≡ notes.old ++ (spec.field_made (face site.now.types.now) (number_of site.now.places.now) field.now).notes) }
{
    put_declared(site, &field.ty, notes)?;
    let face = face_ty(&field.ty)?;
    let initial = bind_initial(site, &face, &field.init, notes)?;
    Ok(Part::Field(value_type(&field.ty)?, initial))
}

fn put_sig(
    site: &Ground<'_, ViewTypes<'_>>,
    sig: &Sig,
    notes: &mut Items<Note>,
) -> Result<(), OutOfMemory>
    ensures { OnOk result (notes.new ≡ notes.old ++ (spec.sig_made (face site.now.types.now) (number_of site.now.places.now) sig.now).notes) }
{
    put_result(site, sig.result.as_ref(), notes)?;
    let mut scope = Scope::new(site.alloc);
    put_params(site, 1, sig.params.as_slice(), &mut scope, notes)?;
    Ok(())
}

fn bind_sig(
    site: &Ground<'_, ViewTypes<'_>>,
    sig: &Sig,
    notes: &mut Items<Note>,
) -> Result<Part, OutOfMemory>
    ensures part { IfOk result (λ part. part_as part ≡ (spec.sig_made (face site.now.types.now) (number_of site.now.places.now) sig.now).part) }
    ensures notes { OnOk result (notes.new ≡ notes.old ++ (spec.sig_made (face site.now.types.now) (number_of site.now.places.now) sig.now).notes) }
{
    put_sig(site, sig, notes)?;
    let params = variables(site.alloc, site.places, sig.params.as_slice())?;
    Ok(Part::Sig(params, result_type(sig.result.as_ref())?))
}

fn code_part(
    alloc: Global,
    view: &View<'_>,
    places: &Places<'_>,
    class: &Name,
    code: &Code<'_>,
    notes: &mut Items<Note>,
) -> Result<Part, OutOfMemory>
    ensures part { IfOk result (λ part. part_as part ≡ (spec.code_made (face view.now) (number_of places.now) class.now (spec.code_as code.now)).part) }
    ensures notes { OnOk result (notes.new ≡ notes.old ++ (spec.code_made (face view.now) (number_of places.now) class.now (spec.code_as code.now)).notes) }
{
    Ok(Part::Body(bind_code(alloc, view, places, class, code, notes)?))
}

fn main_part(
    alloc: Global,
    view: &View<'_>,
    places: &Places<'_>,
    class: &Name,
    main: &Main,
    notes: &mut Items<Note>,
) -> Result<Part, OutOfMemory>
    ensures part { IfOk result (λ part. part_as part ≡ spec.main_part (face view.now) (number_of places.now) class.now main.now) }
    ensures notes { OnOk result (notes.new ≡ notes.old ++ (spec.main_done (face view.now) (number_of places.now) class.now main.now).notes) }
{
    Ok(Part::Body(bind_main(alloc, view, places, class, main, notes)?))
}

fn field_part(
    alloc: Global,
    view: &View<'_>,
    places: &Places<'_>,
    class: &Name,
    field: &Field,
    notes: &mut Items<Note>,
) -> Result<Part, OutOfMemory>
    ensures part { IfOk result (λ part. part_as part ≡ (spec.field_made (face view.now) (number_of places.now) field.now).part) }
    ensures notes { OnOk result (notes.new ≡ notes.old ++ (spec.field_made (face view.now) (number_of places.now) field.now).notes) }
{
    let types = ViewTypes::new(view);
    let site = Ground {
        types: &types,
        class,
        is_static: false,
        places,
        alloc,
    };
    bind_field(&site, field, notes)
}

fn sig_part(
    alloc: Global,
    view: &View<'_>,
    places: &Places<'_>,
    class: &Name,
    sig: &Sig,
    notes: &mut Items<Note>,
) -> Result<Part, OutOfMemory>
    ensures part { IfOk result (λ part. part_as part ≡ (spec.sig_made (face view.now) (number_of places.now) sig.now).part) }
    ensures notes { OnOk result (notes.new ≡ notes.old ++ (spec.sig_made (face view.now) (number_of places.now) sig.now).notes) }
{
    let types = ViewTypes::new(view);
    let site = Ground {
        types: &types,
        class,
        is_static: false,
        places,
        alloc,
    };
    bind_sig(&site, sig, notes)
}

/// The parts of a member of a class, bound. What is found and consulted is put behind the notes.
pub(crate) fn bind_part(
    alloc: Global,
    view: &View<'_>,
    places: &Places<'_>,
    class: &Name,
    member: &MemberTree,
    notes: &mut Items<Note>,
) -> Result<Part, OutOfMemory>
    ensures part { IfOk result (λ part. part_as part ≡ (spec.part_made (face view.now) (number_of places.now) class.now member.now).part) }
    ensures notes { OnOk result (notes.new ≡ notes.old ++ (spec.part_made (face view.now) (number_of places.now) class.now member.now).notes) }
{
    match member {
        MemberTree::Field(field) => field_part(alloc, view, places, class, field, notes),
        MemberTree::Method(method) => {
            code_part(alloc, view, places, class, &method_code(method), notes)
        }
        MemberTree::Sig(sig) => sig_part(alloc, view, places, class, sig, notes),
        MemberTree::Ctor(ctor) => {
            code_part(alloc, view, places, class, &constructor_code(ctor), notes)
        }
        MemberTree::Main(main) => main_part(alloc, view, places, class, main, notes),
    }
}
