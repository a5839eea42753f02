ghost use Rattle.std.specs.Prelude.{◌≡◌, ◌<◌, ◌≤◌, ◌-◌, length, take, IfOk, OnOk, OnErr, IsOk};
ghost use Rattle.desk_base.specs.Fault.{Rises, StaysUntold};
ghost use Rattle.promise_desk.specs.Output.{Wrote, WroteFront, HasRoom};

use desk_base::{Sink, SinkFault};

// Writes a front of the rest of a text, and answers how many bytes it has.
fn give_some<O: Sink>(out: &mut O, rest: &[u8]) -> Result<usize, SinkFault>
    requires { 0 < length rest.now }
    ensures some { IfOk result (λ n. (0 < n) × (n ≤ length rest.now)) }
    ensures given { IfOk result (λ n. Wrote (O.written out.old) (O.written out.new) (take n rest.now)) }
    ensures kept { OnErr result (O.written out.new ≡ O.written out.old) }
    ensures untold { StaysUntold (O.written out.old) (O.written out.new) }
    ensures cause { OnErr result (Rises (O.faults out.old) (O.faults out.new)) }
    ensures never_falls { O.faults out.old ≤ O.faults out.new }
    ensures roomy { HasRoom (O.room out.old) (length rest.now) → IfOk result (λ n. HasRoom (O.room out.new) (length rest.now - n)) }
    ensures silent { HasRoom (O.room out.old) (length rest.now) → IsOk result }
{
    Ok(out.give(rest)? as usize)
}

/// Writes a text whole, in as many pieces as the sink takes.
pub fn write_all<O: Sink>(out: &mut O, text: &[u8]) -> Result<(), SinkFault>
    ensures whole { OnOk result (Wrote (O.written out.old) (O.written out.new) text.now) }
    ensures front { OnErr result (WroteFront (O.written out.old) (O.written out.new) text.now) }
    ensures cause { OnErr result (Rises (O.faults out.old) (O.faults out.new)) }
    ensures never_falls { O.faults out.old ≤ O.faults out.new }
    ensures roomy { HasRoom (O.room out.old) (length text.now) → IsOk result }
{
    let mut rest = text;
    while !rest.is_empty() {
        let given = give_some(out, rest)?;
        rest = &rest[given..];
    }
    Ok(())
}
