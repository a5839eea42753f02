ghost use Rattle.std.specs.Prelude.{◌≡◌, ◌++◌, ◌<◌, ℕ, List, [], ◌∷◌, IfOk, OnOk, decimal};
ghost use Rattle.class_faces.specs.Keys as spec;
ghost use Rattle.class_faces.specs.Keys.{Counts, times};

use desk_base::{Bytes, Items, OutOfMemory, Text};
use itoa::Buffer;
use java_tree::{ClassTree, MemberTree};
use std::alloc::Global;
use std::collections::BTreeMap;

/// A name as a text. A name of the grammar is of ASCII and stays as it is.
pub fn text_of(alloc: Global, name: &[u8]) -> Result<Text, OutOfMemory>
    ensures { IfOk result (λ text. text ≡ spec.text_of name.now) }
{
    let text = String::from_utf8_lossy(alloc, name)?;
    Ok(Text::from_string(text))
}

fn put_number(out: &mut Bytes, number: usize) -> Result<(), OutOfMemory>
    ensures { OnOk result (out.new ≡ out.old ++ decimal number) }
{
    let mut buffer = Buffer::new();
    out.append(buffer.format(number).as_bytes())
}

// A name and a number of parameters.
fn counted(alloc: Global, name: &[u8], count: usize) -> Result<Bytes, OutOfMemory>
    ensures { IfOk result (λ key. key ≡ spec.counted name.now count) }
{
    let mut key = Bytes::from_slice(alloc, name)?;
    key.append(b"/")?;
    put_number(&mut key, count)?;
    Ok(key)
}

// The name in a member's key.
fn key_name(member: &MemberTree) -> &[u8]
    ensures { result.now ≡ spec.key_name member.now }
{
    match member {
        MemberTree::Field(field) => field.name.text.as_slice(),
        MemberTree::Method(method) => method.name.text.as_slice(),
        MemberTree::Sig(sig) => sig.name.text.as_slice(),
        MemberTree::Ctor(_) => b"new",
        MemberTree::Main(_) => b"main",
    }
}

// The number of parameters in a member's key.
fn key_count(member: &MemberTree) -> Option<usize>
    ensures { result ≡ spec.key_count member.now }
{
    match member {
        MemberTree::Field(_) => None,
        MemberTree::Method(method) => Some(method.params.len()),
        MemberTree::Sig(sig) => Some(sig.params.len()),
        MemberTree::Ctor(ctor) => Some(ctor.params.len()),
        MemberTree::Main(_) => Some(1),
    }
}

fn written_name(alloc: Global, name: &[u8], count: Option<usize>) -> Result<Bytes, OutOfMemory>
    ensures { IfOk result (λ key. key ≡ spec.written_name name.now count) }
{
    match count {
        None => Bytes::from_slice(alloc, name),
        Some(count) => counted(alloc, name, count),
    }
}

// What members of one name have in common.
fn slot_of(alloc: Global, member: &MemberTree) -> Result<Bytes, OutOfMemory>
    ensures { IfOk result (λ slot. slot ≡ spec.slot_of member.now) }
{
    match member {
        MemberTree::Field(field) => Bytes::from_slice(alloc, field.name.text.as_slice()),
        MemberTree::Method(method) => {
            counted(alloc, method.name.text.as_slice(), method.params.len())
        }
        MemberTree::Sig(sig) => counted(alloc, sig.name.text.as_slice(), sig.params.len()),
        MemberTree::Ctor(_) => Bytes::from_slice(alloc, b"new"),
        MemberTree::Main(_) => counted(alloc, b"main", 1),
    }
}

// What follows the key of the k-th member of one slot.
fn put_repeat(key: &mut Bytes, k: usize) -> Result<(), OutOfMemory>
    ensures { OnOk result (key.new ≡ key.old ++ spec.repeat_mark k) }
{
    if k < 2 {
        return Ok(());
    }
    key.append(b"~")?;
    put_number(key, k)
}

/// The key of a member of the class: `C.f` of the field `f`, which has no `count`, `C.m/2` of the
/// method `m` with two parameters, `C.new/2` of a constructor, whose name is `new`, and `C.main/1` of
/// a main. The k-th of one name and number of parameters in its class has `~k` behind it from the
/// second on, and so has the k-th field of one name and the k-th constructor; the first has `k` 1.
pub fn member_key(
    alloc: Global,
    class: &[u8],
    name: &[u8],
    count: Option<usize>,
    k: usize,
) -> Result<Text, OutOfMemory>
    ensures { IfOk result (λ key. key ≡ spec.member_key class.now name.now count k) }
{
    let mut short = written_name(alloc, name, count)?;
    put_repeat(&mut short, k)?;
    let mut key = Bytes::from_slice(alloc, class)?;
    key.append(b".")?;
    key.append(short.as_slice())?;
    text_of(alloc, key.as_slice())
}

// Counts a slot once more: how often it has come.
fn count_slot(counts: &mut BTreeMap<Bytes, usize>, slot: Bytes) -> Result<usize, OutOfMemory>
    ensures { IfOk result (λ k. (slots : List (List ℕ)) → Counts counts.old slots → spec.Counted counts.new slots slot k) }
{
    let before = counts.get(&slot).copied().unwrap_or(0);
    let times = before.checked_add(1).ok_or(OutOfMemory)?;
    counts.insert(slot, times)?;
    Ok(times)
}

// The key of a member that comes after those whose slots are counted, and counts its slot.
pub(crate) fn next_key(
    alloc: Global,
    counts: &mut BTreeMap<Bytes, usize>,
    class: &[u8],
    member: &MemberTree,
) -> Result<Text, OutOfMemory>
    ensures { IfOk result (λ key. (slots : List (List ℕ)) → Counts counts.old slots → spec.Keyed counts.new class.now slots member.now key) }
{
    let slot = slot_of(alloc, member)?;
    let k = count_slot(counts, slot)?;
    member_key(alloc, class, key_name(member), key_count(member), k)
}

/// The keys of a class's members, in written order: `C.f` of a field, `C.m/2` of a method with two
/// parameters, `C.new/2` of a constructor, with `~k` behind that of the k-th of one name from the
/// second on.
pub fn member_keys(alloc: Global, class: &ClassTree) -> Result<Items<Text>, OutOfMemory>
    ensures { IfOk result (λ keys. keys ≡ spec.member_keys class.now) }
{
    let mut counts = BTreeMap::new(alloc);
    let mut keys = Items::new(alloc);
    for member in class.members.as_slice() {
        let key = next_key(alloc, &mut counts, class.name.text.as_slice(), member)?;
        keys.push(key)?;
    }
    Ok(keys)
}
