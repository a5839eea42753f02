ghost use Rattle.std.specs.Prelude.{◌≡◌, ◌++◌, ◌∷◌, [], IfOk, OnOk};
ghost use Rattle.std.specs.List.{flat_map};
ghost use Rattle.std.specs.Option.{option_copied};
ghost use Rattle.finding_order.specs.Numbers.{in_order};
ghost use Rattle.unit_rules.specs.Faults as spec;

use class_faces::text_of;
use desk_base::{Items, OutOfMemory, PromiseKey, PromiseName, Text};
use finding_order::put_in_order;
use java_tree::Token;
use name_rules::Note;
use result_records::{Finding, FindingCode, FindingKey};
use sqlite_items::at as item;
use std::alloc::Global;
use unit_findings::into_vec;

fn program_key(alloc: Global) -> PromiseKey
    ensures { result ≡ spec.program_key }
{
    PromiseKey {
        target: Text::new(alloc),
        name: PromiseName::Program,
        detail: Text::new(alloc),
    }
}

fn token_bytes(token: Option<&Token>) -> &[u8]
    ensures { result.now ≡ spec.bytes_if_any (option_copied token.entry) }
{
    match token {
        Some(token) => token.bytes.as_slice(),
        None => &[],
    }
}

/// The token of a number, from 1, as it is written.
fn token_text(alloc: Global, tokens: &[Token], at: u32) -> Result<Text, OutOfMemory>
    ensures { IfOk result (λ text. text ≡ spec.token_text tokens.now at) }
{
    let token = item(tokens, (at as usize).saturating_sub(1));
    text_of(alloc, token_bytes(token))
}

fn is_assume(code: FindingCode) -> bool
    ensures { result ≡ spec.is_assume code }
{
    matches!(code, FindingCode::BadAssume)
}

fn subject_of(
    alloc: Global,
    tokens: &[Token],
    code: FindingCode,
    at: u32,
) -> Result<Text, OutOfMemory>
    ensures { IfOk result (λ text. text ≡ spec.subject_of tokens.now code at) }
{
    if is_assume(code) {
        return Text::from_text(alloc, "Assume");
    }
    token_text(alloc, tokens, at)
}

fn fault(
    alloc: Global,
    key: &Text,
    tokens: &[Token],
    code: FindingCode,
    at: u32,
) -> Result<Finding, OutOfMemory>
    ensures { IfOk result (λ found. found ≡ spec.fault key.now tokens.now code at) }
{
    let subject = subject_of(alloc, tokens, code, at)?;
    let unit = key.clone()?;
    Ok(Finding {
        key: FindingKey {
            code,
            number: 0,
            unit,
            on: program_key(alloc),
        },
        place: at,
        subject,
        alternatives: Items::new(alloc),
    })
}

fn put_told(
    alloc: Global,
    key: &Text,
    tokens: &[Token],
    note: &Note,
    out: &mut Items<Finding>,
) -> Result<(), OutOfMemory>
    ensures { OnOk result (out.new ≡ out.old ++ spec.told_fault key.now tokens.now note.now) }
{
    match note {
        Note::Finding(code, at) => {
            out.push(fault(alloc, key, tokens, *code, *at)?)?;
            Ok(())
        }
        Note::Names(_) | Note::Calls(_, _, _) => Ok(()),
    }
}

fn told(
    alloc: Global,
    key: &Text,
    tokens: &[Token],
    notes: &[Note],
) -> Result<Items<Finding>, OutOfMemory>
    ensures { IfOk result (λ out. out ≡ flat_map (spec.told_fault key.now tokens.now) notes.now) }
{
    let mut out = Items::new(alloc);
    for note in notes {
        put_told(alloc, key, tokens, note, &mut out)?;
    }
    Ok(out)
}

fn in_places(alloc: Global, findings: Items<Finding>) -> Result<Items<Finding>, OutOfMemory>
    ensures { IfOk result (λ out. out ≡ in_order findings) }
{
    let mut out = Items::new(alloc);
    put_in_order(alloc, findings, &mut out)?;
    Ok(out)
}

/// Puts a finding behind the first ones, the last of which is at a place, unless it is there too. It
/// answers its place.
fn put_first(finding: Finding, last: u32, out: &mut Items<Finding>) -> Result<u32, OutOfMemory>
    ensures place { IfOk result (λ at. at ≡ finding.place) }
    ensures out { OnOk result (out.new ≡ out.old ++ spec.firsts_after last (finding ∷ [])) }
{
    let at = finding.place;
    if at != last {
        out.push(finding)?;
    }
    Ok(at)
}

/// Of findings in order, the first at each place. Places are from 1.
fn firsts(alloc: Global, findings: Items<Finding>) -> Result<Items<Finding>, OutOfMemory>
    ensures { IfOk result (λ out. out ≡ spec.firsts findings) }
{
    let mut out = Items::new(alloc);
    let mut last = 0;
    for finding in into_vec(alloc, findings)? {
        last = put_first(finding, last, &mut out)?;
    }
    Ok(out)
}

/// The bind findings of a unit of a key, of what is told of it, with its tokens: in order of places, at
/// one place at most one, that of the first code, each with its number among those of its code.
pub fn bind_findings(
    alloc: Global,
    key: &Text,
    tokens: &[Token],
    notes: &[Note],
) -> Result<Items<Finding>, OutOfMemory>
    ensures { IfOk result (λ found. found ≡ spec.faults key.now tokens.now notes.now) }
{
    let told = told(alloc, key, tokens, notes)?;
    let ordered = in_places(alloc, told)?;
    let firsts = firsts(alloc, ordered)?;
    in_places(alloc, firsts)
}
