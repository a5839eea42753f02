ghost use Rattle.std.specs.Prelude.{◌≡◌, ◌++◌, IfOk, OnOk};
ghost use Rattle.bound_tree.specs.Reading.{statement_of};
ghost use Rattle.tree_places.specs.Numbers.{number_of};
ghost use Rattle.tree_places.specs.Plain.{plain_block};
ghost use Rattle.views.specs.Face.{face};
ghost use Rattle.binder.specs.Members as spec;
ghost use Rattle.binder.specs.Trees.{body_as};

use crate::params::{put_params, put_result, result_face, result_type, variables};
use bound_tree::{Body, Stmt};
use class_faces::is_static;
use desk_base::{Items, Name, OutOfMemory, Span};
use expression_binding::{Ground, Places};
use java_tree::{Block, Ctor, Main, Method, Mod, ModWord, Param, Ty};
use name_rules::{Entry, Note, Scope};
use statement_binding::{MemberHead, bind_body};
use std::alloc::Global;
use unit_rules::ViewTypes;
use views::View;

/// What methods and constructors have: the name (`new` of a constructor) and its place, whether it is
/// static, synchronized or a constructor, the result's type, the parameters and the body.
#[derive(Clone, Copy)]
pub(crate) struct Code<'m> {
    pub(crate) name: &'m [u8],
    pub(crate) at: Span,
    pub(crate) is_static: bool,
    pub(crate) is_synchronized: bool,
    pub(crate) is_constructor: bool,
    pub(crate) result: Option<&'m Ty>,
    pub(crate) params: &'m [Param],
    pub(crate) block: &'m Block,
}

fn is_synchronized(mods: &[Mod]) -> bool
    ensures { result ≡ spec.is_synchronized mods.now }
{
    mods.iter()
        .any(|word| matches!(word, Mod::Word(ModWord::Synchronized, _)))
}

pub(crate) fn method_code(method: &Method) -> Code<'_>
    ensures { spec.code_as result ≡ spec.method_code method.now }
{
    Code {
        name: method.name.text.as_slice(),
        at: method.name.span,
        is_static: is_static(method.mods.as_slice()),
        is_synchronized: is_synchronized(method.mods.as_slice()),
        is_constructor: false,
        result: method.result.as_ref(),
        params: method.params.as_slice(),
        block: &method.body,
    }
}

pub(crate) fn constructor_code(ctor: &Ctor) -> Code<'_>
    ensures { spec.code_as result ≡ spec.constructor_code ctor.now }
{
    Code {
        name: b"new",
        at: ctor.name.span,
        is_static: false,
        is_synchronized: false,
        is_constructor: true,
        result: None,
        params: ctor.params.as_slice(),
        block: &ctor.body,
    }
}

fn first_param(is_static: bool) -> u32
    ensures { result ≡ spec.first_param is_static }
{
    if is_static { 0 } else { 1 }
}

fn bind_block(
    site: &Ground<'_, ViewTypes<'_>>,
    code: &Code<'_>,
    notes: &mut Items<Note>,
) -> Result<Stmt, OutOfMemory>
    requires { site.now.is_static ≡ code.now.is_static }
    ensures made { IfOk result (λ made. statement_of made ≡ (spec.body_done (face site.now.types.now) (number_of site.now.places.now) site.now.class.now (spec.code_as code.now)).made) }
    ensures notes { OnOk result (notes.new ≡ notes.old ++ spec.code_notes (face site.now.types.now) (number_of site.now.places.now) site.now.class.now (spec.code_as code.now)) }
{
    put_result(site, code.result, notes)?;
    let mut scope = Scope::new(site.alloc);
    let first = first_param(code.is_static);
    let next = put_params(site, first, code.params, &mut scope, notes)?;
    let result = result_face(code.result)?;
    let head = MemberHead {
        result: result.as_ref(),
        is_constructor: code.is_constructor,
        name_at: site.places.place(code.at),
    };
    bind_body(site, head, scope, next, code.block, notes)
}

/// A method or a constructor of a class, bound. What is found and consulted is put behind the notes.
pub(crate) fn bind_code(
    alloc: Global,
    view: &View<'_>,
    places: &Places<'_>,
    class: &Name,
    code: &Code<'_>,
    notes: &mut Items<Note>,
) -> Result<Body, OutOfMemory>
    ensures body { IfOk result (λ body. body_as body ≡ spec.code_body (face view.now) (number_of places.now) class.now (spec.code_as code.now)) }
    ensures notes { OnOk result (notes.new ≡ notes.old ++ spec.code_notes (face view.now) (number_of places.now) class.now (spec.code_as code.now)) }
{
    let name = Name::from_slice(alloc, code.name)?;
    let params = variables(alloc, places, code.params)?;
    let result = result_type(code.result)?;
    let types = ViewTypes::new(view);
    let site = Ground {
        types: &types,
        class,
        is_static: code.is_static,
        places,
        alloc,
    };
    let block = bind_block(&site, code, notes)?;
    Ok(Body {
        name,
        is_static: code.is_static,
        is_synchronized: code.is_synchronized,
        params,
        result,
        block,
    })
}

/// The scope of a main's body, in which its parameter's name names nothing.
fn main_scope(alloc: Global, main: &Main) -> Result<Scope, OutOfMemory>
    ensures { IfOk result (λ scope. scope ≡ spec.main_scope main.now) }
{
    let mut scope = Scope::new(alloc);
    let name = main.param.text.clone()?;
    scope.put(Entry {
        name,
        variable: None,
    })?;
    Ok(scope)
}

fn main_block(
    alloc: Global,
    view: &View<'_>,
    places: &Places<'_>,
    class: &Name,
    main: &Main,
    notes: &mut Items<Note>,
) -> Result<Stmt, OutOfMemory>
    ensures made { IfOk result (λ made. statement_of made ≡ (spec.main_done (face view.now) (number_of places.now) class.now main.now).made) }
    ensures notes { OnOk result (notes.new ≡ notes.old ++ (spec.main_done (face view.now) (number_of places.now) class.now main.now).notes) }
{
    let types = ViewTypes::new(view);
    let site = Ground {
        types: &types,
        class,
        is_static: true,
        places,
        alloc,
    };
    let head = MemberHead {
        result: None,
        is_constructor: false,
        name_at: places.place(main.name.span),
    };
    let scope = main_scope(alloc, main)?;
    bind_body(&site, head, scope, 1, &main.body, notes)
}

/// A main of a class, bound.
pub(crate) fn bind_main(
    alloc: Global,
    view: &View<'_>,
    places: &Places<'_>,
    class: &Name,
    main: &Main,
    notes: &mut Items<Note>,
) -> Result<Body, OutOfMemory>
    ensures body { IfOk result (λ body. body_as body ≡ spec.main_body (face view.now) (number_of places.now) class.now main.now) }
    ensures notes { OnOk result (notes.new ≡ notes.old ++ (spec.main_done (face view.now) (number_of places.now) class.now main.now).notes) }
{
    let name = main.name.text.clone()?;
    let block = main_block(alloc, view, places, class, main, notes)?;
    Ok(Body {
        name,
        is_static: true,
        is_synchronized: is_synchronized(main.mods.as_slice()),
        params: Items::new(alloc),
        result: None,
        block,
    })
}
