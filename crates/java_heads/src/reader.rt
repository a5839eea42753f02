//! The parts of a file that are read here, each by one call.

ghost use Rattle.std.specs.Prelude.{◌≡◌, List, [], IfOk, OnOk};
ghost use Rattle.java_tree.specs.declared.token.Token.{Token};
ghost use Rattle.java_tree.specs.declared.member.Field.{Field};
ghost use Rattle.java_tree.specs.declared.member.Sig.{Sig};
ghost use Rattle.java_tree.specs.declared.file.Package.{Package};
ghost use Rattle.java_tree.specs.declared.file.Import.{Import};
ghost use Rattle.java_heads.specs.declared.header.Header.{Header};
ghost use Rattle.java_phrases.specs.Cursor.{ahead};
ghost use Rattle.java_heads.specs.Spelling.{PackageSpells, ImportSpells, HeaderSpells, FieldSpells, SigSpells};
ghost use Rattle.java_phrases.specs.Answers.{Gives};
ghost use Rattle.java_heads.specs.Answers.{Reads, ReadsKept, ReadsHeader, field_with, sig_with, header_with};
ghost use Rattle.java_heads.specs.Reading as spec;

use crate::header::{Header, type_header};
use crate::lines::{import_line, package_line};
use crate::member::{field, signature};
use java_phrases::{SyntaxError, Tokens};
use java_tree::{Field, Import, Kind, Package, Sig};
use std::alloc::Global;

/// Reads the package line (JLS 8, 7.4.1). `NotSpelled` comes exactly where the tokens ahead begin with
/// none; where the cursor stands then isn't said, neither here nor below.
pub fn read_package(alloc: Global, tokens: &mut Tokens) -> Result<Package, SyntaxError>
    ensures found { IfOk result (λ p. PackageSpells p (ahead tokens.old) (ahead tokens.new)) }
    ensures only { (p : Package) (rest : List Token) → PackageSpells p (ahead tokens.old) rest → Gives result (ahead tokens.new) p rest }
{
    package_line(alloc, tokens)
}

/// Reads an import line (JLS 8, 7.5).
pub fn read_import(alloc: Global, tokens: &mut Tokens) -> Result<Import, SyntaxError>
    ensures found { IfOk result (λ i. ImportSpells i (ahead tokens.old) (ahead tokens.new)) }
    ensures only { (i : Import) (rest : List Token) → ImportSpells i (ahead tokens.old) rest → Gives result (ahead tokens.new) i rest }
{
    import_line(alloc, tokens)
}

/// A header with its tokens, without its brace.
fn kept_header(alloc: Global, tokens: &mut Tokens) -> Result<Header, SyntaxError>
    ensures reads { ReadsKept spec.type_header header_with (ahead tokens.old) result (ahead tokens.new) }
    ensures fresh { OnOk result (tokens.new.taken ≡ []) }
{
    let _before = tokens.keep(alloc);
    let mut header = type_header(alloc, tokens)?;
    header.tokens = tokens.keep(alloc);
    Ok(header)
}

/// The brace behind a header, which belongs to no part.
#[tactic(auto, unfolding(crate::specs::Reading::brace))]
fn brace(alloc: Global, tokens: &mut Tokens) -> Result<(), SyntaxError>
    ensures reads { Reads spec.brace (ahead tokens.old) result (ahead tokens.new) }
    ensures fresh { OnOk result (tokens.new.taken ≡ []) }
{
    tokens.sign(Kind::LBrace)?;
    let _brace = tokens.keep(alloc);
    Ok(())
}

fn braced_header(alloc: Global, tokens: &mut Tokens) -> Result<Header, SyntaxError>
    ensures reads { ReadsHeader (ahead tokens.old) result (ahead tokens.new) }
    ensures fresh { OnOk result (tokens.new.taken ≡ []) }
{
    let header = kept_header(alloc, tokens)?;
    brace(alloc, tokens)?;
    Ok(header)
}

/// Reads what stands before the members of a type, with the `{`, which its tokens leave out (JLS 8,
/// 8.1, 9.1, as far as the subset goes). The next part begins with the next token.
pub fn read_header(alloc: Global, tokens: &mut Tokens) -> Result<Header, SyntaxError>
    ensures found { IfOk result (λ h. HeaderSpells h (ahead tokens.old) (ahead tokens.new)) }
    ensures only { (h : Header) (rest : List Token) → HeaderSpells h (ahead tokens.old) rest → Gives result (ahead tokens.new) h rest }
    ensures fresh { OnOk result (tokens.new.taken ≡ []) }
{
    braced_header(alloc, tokens)
}

fn kept_field(alloc: Global, tokens: &mut Tokens) -> Result<Field, SyntaxError>
    ensures reads { ReadsKept spec.field field_with (ahead tokens.old) result (ahead tokens.new) }
    ensures fresh { OnOk result (tokens.new.taken ≡ []) }
{
    let _before = tokens.keep(alloc);
    let mut read = field(alloc, tokens)?;
    read.tokens = tokens.keep(alloc);
    Ok(read)
}

/// Reads a field with its tokens (JLS 8, 8.3, as far as the subset goes). The next part begins with
/// the next token.
pub fn read_field(alloc: Global, tokens: &mut Tokens) -> Result<Field, SyntaxError>
    ensures found { IfOk result (λ f. FieldSpells f (ahead tokens.old) (ahead tokens.new)) }
    ensures only { (f : Field) (rest : List Token) → FieldSpells f (ahead tokens.old) rest → Gives result (ahead tokens.new) f rest }
    ensures fresh { OnOk result (tokens.new.taken ≡ []) }
{
    kept_field(alloc, tokens)
}

fn kept_sig(alloc: Global, tokens: &mut Tokens) -> Result<Sig, SyntaxError>
    ensures reads { ReadsKept spec.signature sig_with (ahead tokens.old) result (ahead tokens.new) }
    ensures fresh { OnOk result (tokens.new.taken ≡ []) }
{
    let _before = tokens.keep(alloc);
    let mut read = signature(alloc, tokens)?;
    read.tokens = tokens.keep(alloc);
    Ok(read)
}

/// Reads a method of an interface with its tokens (JLS 8, 9.4, as far as the subset goes). The next
/// part begins with the next token.
pub fn read_sig(alloc: Global, tokens: &mut Tokens) -> Result<Sig, SyntaxError>
    ensures found { IfOk result (λ s. SigSpells s (ahead tokens.old) (ahead tokens.new)) }
    ensures only { (s : Sig) (rest : List Token) → SigSpells s (ahead tokens.old) rest → Gives result (ahead tokens.new) s rest }
    ensures fresh { OnOk result (tokens.new.taken ≡ []) }
{
    kept_sig(alloc, tokens)
}
