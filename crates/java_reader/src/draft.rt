//! What has been read of a file so far, and how each part is added to it.

ghost use Rattle.std.specs.Prelude.{◌≡◌};
ghost use Rattle.java_phrases.specs.Cursor.{ahead};
ghost use Rattle.java_reader.specs.Spelling.{TypeMember};
ghost use Rattle.java_reader.specs.Parts.{PackageLine, ImportLine, Opening, Inner, Closing};
ghost use Rattle.java_reader.specs.Answers.{FindsAny, Adds, Advances};
ghost use Rattle.java_reader.specs.Drafts as spec;

use desk_base::{Items, Name};
use java_heads::{Header, read_header, read_import, read_package, read_sig};
use java_members::read_member;
use java_phrases::{SyntaxError, Tokens};
use java_tree::{ClassTree, FileTree, Kind, MemberTree, TypeKind};
use std::alloc::Global;

/// The lines and the whole types, and the type whose body is open.
#[derive(Drop)]
pub(crate) struct Draft {
    pub(crate) file: FileTree,
    pub(crate) current: Option<ClassTree>,
}

/// Nothing.
pub(crate) fn blank_draft(alloc: Global) -> Draft
    ensures { result ≡ spec.blank }
{
    Draft {
        file: FileTree {
            package: None,
            imports: Items::new(alloc),
            types: Items::new(alloc),
        },
        current: None,
    }
}

fn with_package(alloc: Global, tokens: &mut Tokens, file: FileTree) -> Result<Draft, SyntaxError>
    ensures { Adds PackageLine (spec.between file) (ahead tokens.old) result (ahead tokens.new) }
{
    if file.package.is_some() || !file.imports.is_empty() || !file.types.is_empty() {
        return Err(SyntaxError::NotSpelled);
    }
    let package = read_package(alloc, tokens)?;
    Ok(Draft {
        file: FileTree {
            package: Some(package),
            imports: file.imports,
            types: file.types,
        },
        current: None,
    })
}

fn with_import(alloc: Global, tokens: &mut Tokens, file: FileTree) -> Result<Draft, SyntaxError>
    ensures { Adds ImportLine (spec.between file) (ahead tokens.old) result (ahead tokens.new) }
{
    if !file.types.is_empty() {
        return Err(SyntaxError::NotSpelled);
    }
    let mut file = file;
    let import = read_import(alloc, tokens)?;
    file.imports.push(import)?;
    Ok(Draft {
        file,
        current: None,
    })
}

/// A type of this header without members.
fn class_of(alloc: Global, header: Header) -> ClassTree
    ensures { result ≡ spec.class_of header }
{
    ClassTree {
        mods: header.mods,
        kind: header.kind,
        name: header.name,
        implements: header.implements,
        members: Items::new(alloc),
        tokens: header.tokens,
    }
}

fn with_header(alloc: Global, tokens: &mut Tokens, file: FileTree) -> Result<Draft, SyntaxError>
    ensures { Adds Opening (spec.between file) (ahead tokens.old) result (ahead tokens.new) }
{
    let header = read_header(alloc, tokens)?;
    Ok(Draft {
        file,
        current: Some(class_of(alloc, header)),
    })
}

/// A part that stands in no body.
fn outside(alloc: Global, tokens: &mut Tokens, file: FileTree) -> Result<Draft, SyntaxError>
    ensures { Advances (spec.between file) (ahead tokens.old) result (ahead tokens.new) }
{
    if tokens.sees(Kind::Package) {
        with_package(alloc, tokens, file)
    } else if tokens.sees(Kind::Import) {
        with_import(alloc, tokens, file)
    } else {
        with_header(alloc, tokens, file)
    }
}

/// A member of the class or interface of this name.
fn member_of(
    alloc: Global,
    tokens: &mut Tokens,
    kind: TypeKind,
    name: &Name,
) -> Result<MemberTree, SyntaxError>
    ensures { FindsAny (TypeMember kind name.now) (ahead tokens.old) result (ahead tokens.new) }
{
    match kind {
        TypeKind::Class => read_member(alloc, tokens, name),
        TypeKind::Interface => Ok(MemberTree::Sig(read_sig(alloc, tokens)?)),
    }
}

fn with_member(
    alloc: Global,
    tokens: &mut Tokens,
    file: FileTree,
    class: ClassTree,
) -> Result<Draft, SyntaxError>
    ensures { Adds Inner (spec.within file class) (ahead tokens.old) result (ahead tokens.new) }
{
    let mut class = class;
    let member = member_of(alloc, tokens, class.kind, &class.name.text)?;
    class.members.push(member)?;
    Ok(Draft {
        file,
        current: Some(class),
    })
}

/// The type whose body ends here.
fn closed(tokens: &mut Tokens, file: FileTree, class: ClassTree) -> Result<Draft, SyntaxError>
    ensures { Adds (λ (u : Unit {0}). Closing) (spec.within file class) (ahead tokens.old) result (ahead tokens.new) }
{
    tokens.sign(Kind::RBrace)?;
    let mut file = file;
    file.types.push(class)?;
    Ok(Draft {
        file,
        current: None,
    })
}

/// A part that stands in a body.
fn inside(
    alloc: Global,
    tokens: &mut Tokens,
    file: FileTree,
    class: ClassTree,
) -> Result<Draft, SyntaxError>
    ensures { Advances (spec.within file class) (ahead tokens.old) result (ahead tokens.new) }
{
    if tokens.sees(Kind::RBrace) {
        closed(tokens, file, class)
    } else {
        with_member(alloc, tokens, file, class)
    }
}

/// Reads one part more. `NotSpelled` comes exactly where none stands there.
pub(crate) fn with_part(
    alloc: Global,
    tokens: &mut Tokens,
    draft: Draft,
) -> Result<Draft, SyntaxError>
    ensures { Advances draft (ahead tokens.old) result (ahead tokens.new) }
{
    let Draft { file, current } = draft;
    match current {
        Some(class) => inside(alloc, tokens, file, class),
        None => outside(alloc, tokens, file),
    }
}
