//! The shapes of trees, so far as cases look at them.

use crate::surfaces::put_bytes;
use anyhow::Result;
use java_heads::Header;
use java_tree::{
    Annot, AnnotLayer, Block, BlockItem, Elem, Elements, Expr, Field, Import, MemberTree, Mod,
    Package, Sig, Stmt,
};

/// What a case prints of a tree.
pub(crate) trait Shape {
    fn put(&self, out: &mut String) -> Result<()>;
}

/// Nothing but that it was read.
impl Shape for Package {
    fn put(&self, out: &mut String) -> Result<()> {
        put_bytes(out, b"read")
    }
}

impl Shape for Import {
    fn put(&self, out: &mut String) -> Result<()> {
        put_bytes(out, b"read")
    }
}

impl Shape for Header {
    fn put(&self, out: &mut String) -> Result<()> {
        put_bytes(out, b"read")
    }
}

impl Shape for Sig {
    fn put(&self, out: &mut String) -> Result<()> {
        put_bytes(out, b"read")
    }
}

impl Shape for Field {
    fn put(&self, out: &mut String) -> Result<()> {
        put_bytes(out, b"read")
    }
}

/// A field of which the annotations are printed.
#[derive(Drop)]
pub(crate) struct Annotated(pub(crate) Field);

fn put_elem(out: &mut String, elem: &Elem) -> Result<()> {
    match elem {
        Elem::Str(text) => put_bytes(out, text.text.as_slice()),
        Elem::Annot => put_bytes(out, b"@"),
    }
}

fn put_elems(out: &mut String, elems: &[Elem]) -> Result<()> {
    for (i, elem) in elems.iter().enumerate() {
        out.push_str(if i == 0 { "({" } else { ", " })?;
        put_elem(out, elem)?;
    }
    put_bytes(out, b"})")
}

fn put_layer(out: &mut String, layer: &AnnotLayer) -> Result<()> {
    out.push('@')?;
    for name in layer.name.as_slice() {
        put_bytes(out, name.text.as_slice())?;
    }
    match &layer.elements {
        Elements::Bare => Ok(()),
        Elements::Empty(_, _) => put_bytes(out, b"()"),
        Elements::One(_, _, elem, _) => {
            out.push('(')?;
            put_elem(out, elem)?;
            put_bytes(out, b")")
        }
        Elements::Many(_, _, elems, _) => put_elems(out, elems.as_slice()),
    }
}

// An annotation, and those within it with their depths.
fn put_annotation(out: &mut String, annotation: &Annot) -> Result<()> {
    out.push_str("; ")?;
    put_layer(out, &annotation.layer)?;
    for inner in annotation.inner.as_slice() {
        write!(out, ", at depth {} ", inner.depth)?;
        put_layer(out, &inner.layer)?;
    }
    Ok(())
}

impl Shape for Annotated {
    fn put(&self, out: &mut String) -> Result<()> {
        write!(out, "{} tokens", self.0.tokens.len())?;
        for modifier in self.0.mods.as_slice() {
            if let Mod::Annot(annotation) = modifier {
                put_annotation(out, annotation)?;
            }
        }
        Ok(())
    }
}

// Operators, grouped by parentheses, and names.
fn put_expr(out: &mut String, expr: &Expr) -> Result<()> {
    match expr {
        Expr::Name(name) => put_bytes(out, name.text.as_slice()),
        Expr::Binary(left, op, _, right) => {
            out.push('(')?;
            put_expr(out, left.get())?;
            write!(out, " {op:?} ")?;
            put_expr(out, right.get())?;
            put_bytes(out, b")")
        }
        _ => put_bytes(out, b"expression"),
    }
}

impl Shape for Expr {
    fn put(&self, out: &mut String) -> Result<()> {
        put_expr(out, self)
    }
}

// Which statements stand in an `if`.
fn put_stmt(out: &mut String, stmt: &Stmt) -> Result<()> {
    let Stmt::If(_, _, then, other) = stmt else {
        return put_bytes(out, b"statement");
    };
    out.push_str("if [")?;
    put_stmt(out, then.get())?;
    out.push(']')?;
    if let Some(other) = other {
        out.push_str(" else [")?;
        put_stmt(out, other.get())?;
        out.push(']')?;
    }
    Ok(())
}

fn put_item(out: &mut String, item: &BlockItem) -> Result<()> {
    out.push(' ')?;
    match item {
        BlockItem::Local(_, _) => put_bytes(out, b"local"),
        BlockItem::Stmt(stmt) => put_stmt(out, stmt),
    }
}

impl Shape for Block {
    fn put(&self, out: &mut String) -> Result<()> {
        out.push('{')?;
        for item in self.items.as_slice() {
            put_item(out, item)?;
        }
        put_bytes(out, b" }")
    }
}

/// The sort of a member.
pub(crate) fn sort_of(member: &MemberTree) -> &'static str {
    match member {
        MemberTree::Field(_) => "field",
        MemberTree::Method(_) => "method",
        MemberTree::Sig(_) => "sig",
        MemberTree::Ctor(_) => "constructor",
        MemberTree::Main(_) => "main",
    }
}

impl Shape for MemberTree {
    fn put(&self, out: &mut String) -> Result<()> {
        put_bytes(out, sort_of(self).as_bytes())
    }
}
