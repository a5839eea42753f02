ghost use Rattle.std.specs.Prelude.{◌≡◌, ◌++◌, IfOk, OnOk};
ghost use Rattle.result_records.specs.Keys.{promise_bytes, key_bytes};

use crate::finding::FindingKey;
use crate::put::Put;
use desk_base::{OutOfMemory, PromiseKey, PromiseName, Text};
use std::alloc::Global;

/// Puts the key of a promise at the end: its target, its kind and its detail, with a blank between
/// them and none after the kind where the detail is empty; `Program` is written as its name alone.
/// After want of memory a front of it may stand there.
pub fn put_promise<B: Put>(out: &mut B, key: &PromiseKey) -> Result<(), OutOfMemory>
    ensures { OnOk result (B.written out.new ≡ B.written out.old ++ promise_bytes key.now) }
{
    if key.name == PromiseName::Program {
        return out.put(key.name.text());
    }
    out.put(key.target.as_str())?;
    out.put(" ")?;
    out.put(key.name.text())?;
    if !key.detail.is_empty() {
        out.put(" ")?;
        out.put(key.detail.as_str())?;
    }
    Ok(())
}

/// Puts the key of a finding at the end, as `CODE#NUMBER UNIT > PROMISE`. After want of memory a
/// front of it may stand there.
pub fn put_key<B: Put>(out: &mut B, key: &FindingKey) -> Result<(), OutOfMemory>
    ensures { OnOk result (B.written out.new ≡ B.written out.old ++ key_bytes key.now) }
{
    out.put(key.code.code())?;
    out.put("#")?;
    out.put_number(u64::from(key.number))?;
    out.put(" ")?;
    out.put(key.unit.as_str())?;
    out.put(" > ")?;
    put_promise(out, &key.on)
}

/// The key of a promise as it is written.
pub fn promise_text(alloc: Global, key: &PromiseKey) -> Result<Text, OutOfMemory>
    ensures { IfOk result (λ text. text ≡ promise_bytes key.now) }
{
    let mut text = Text::new(alloc);
    put_promise(&mut text, key)?;
    Ok(text)
}

/// The key of a finding as it is written.
pub fn key_text(alloc: Global, key: &FindingKey) -> Result<Text, OutOfMemory>
    ensures { IfOk result (λ text. text ≡ key_bytes key.now) }
{
    let mut text = Text::new(alloc);
    put_key(&mut text, key)?;
    Ok(text)
}
