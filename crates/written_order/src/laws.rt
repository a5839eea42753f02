//! What follows from the definitions alone: the calls do nothing, and their contracts are laws.

ghost use Rattle.std.specs.Prelude.{◌≡◌};
ghost use Rattle.std.specs.Ordering.{nat_cmp};
ghost use Rattle.std.specs.Cmp.Lexicographic.{slice_cmp};
ghost use Rattle.desk_base.specs.declared.key.PromiseKey.{PromiseKey};
ghost use Rattle.result_records.specs.Code.{code_bytes};
ghost use Rattle.result_records.specs.Keys.{promise_bytes};
ghost use Rattle.result_records.specs.declared.code.FindingCode.{FindingCode};
ghost use Rattle.finding_order.specs.Order.{code_cmp, promise_cmp};
ghost use Rattle.written_order.specs.Written.{IsOfUnit};

/// Promises of units are ordered by the bytes of their written keys: no byte of a target is as low as
/// the blank behind it.
pub fn promises_come_as_written()
    ensures { (a b : PromiseKey) → IsOfUnit a → IsOfUnit b → promise_cmp a b ≡ slice_cmp nat_cmp (promise_bytes a) (promise_bytes b) }
{}

/// Codes are ordered by the bytes that are printed for them.
pub fn codes_come_as_written()
    ensures { (a b : FindingCode) → code_cmp a b ≡ slice_cmp nat_cmp (code_bytes a) (code_bytes b) }
{}
