ghost use Rattle.std.specs.Prelude.{◌≡◌, ◌≢◌, ◌≤◌, ℕ, List, Some};
ghost use Rattle.desk_base.specs.Fault.{Rises};
ghost use Rattle.report.specs.declared.answers.Answers.{Answers as Results};
ghost use Rattle.promise_desk.specs.declared.status.Status.{Status as End};
ghost use Rattle.promise_desk.specs.Words.{IsCheck};
ghost use Rattle.promise_desk.specs.Check.{AnswersOf};
ghost use Rattle.promise_desk.specs.Status.{code_of, fixed_line};
ghost use Rattle.promise_desk.specs.Endings.{CheckEnds, RunEnds, IsReportOrMemory, text_of};
ghost use Rattle.promise_desk.specs.Intake.{Moved};
ghost use Rattle.promise_desk.specs.Output.{Wrote, WroteFront};

use crate::check::{Ending, Text, judge_bundle, past_limit};
use crate::intake::{IntakeError, read_all};
use crate::output::write_all;
use crate::status::Status;
use crate::words::{Command, WordsError, read_words};
use bundle::one_bundle;
use desk_base::{Keeper, LimitName, OutOfMemory, Sink, Source, Steps};
use project_judge::answered_files_have_no_cause;
use std::alloc::Global;

// The ending of a status whose line is always the same.
fn fixed(status: Status) -> Ending
    ensures status { result.status ≡ status }
    ensures text { text_of result.text ≡ fixed_line status }
{
    Ending {
        status,
        text: Text::Fixed(status.line()),
    }
}

// Reads an input to its end and judges the bundle that it is.
fn check<I: Source>(alloc: Global, input: &mut I) -> Ending
    ensures ends { CheckEnds (I.left input.old) (I.left input.new) (Rises (I.faults input.old) (I.faults input.new)) result.status (text_of result.text) }
    ensures moved { Moved (I.faults input.old) (I.quiet input.old) (I.faults input.new) (I.quiet input.new) }
{
    match read_all(alloc, input) {
        Ok(bytes) => judge_bundle(alloc, bytes.as_slice()).unwrap_or(fixed(Status::Memory)),
        Err(IntakeError::Fault) => fixed(Status::InputFault),
        Err(IntakeError::TooLong) => match past_limit(alloc, LimitName::BundleBytes) {
            Ok(ending) => ending,
            Err(OutOfMemory) => fixed(Status::Memory),
        },
        Err(IntakeError::OutOfMemory) => fixed(Status::Memory),
    }
}

// What the words ask for, but for the writing.
fn run<I: Source>(alloc: Global, words: &Vec<String>, input: &mut I) -> Ending
    ensures ends { RunEnds (IsCheck words.now) (I.left input.old) (I.left input.new) (Rises (I.faults input.old) (I.faults input.new)) result.status (text_of result.text) }
    ensures moved { Moved (I.faults input.old) (I.quiet input.old) (I.faults input.new) (I.quiet input.new) }
{
    match read_words(alloc, words) {
        Ok(Command::Check) => check(alloc, input),
        Err(WordsError::Usage) => fixed(Status::Usage),
        Err(WordsError::OutOfMemory) => fixed(Status::Memory),
    }
}

/// The program but for its adapters: it does what the words after the program's name ask for, writes
/// the text of how that ended to `out`, and answers the exit status. So far `check` is the one
/// command; neither the keeper nor the step counter is used.
///
/// 0 and 1: a bundle was read to the input's end and its report written, 1 where a verdict is
/// inconsistent. 2: the words are no command. 3: a take failed. 4: a give failed. 6: the input is no
/// bundle. 7: a file isn't read, or has a type that isn't judged so far. 8: two types have one name. 9: a limit
/// is passed. 11: memory was wanting.
pub fn desk_main<I: Source, O: Sink, K: Keeper, L>(
    alloc: Global,
    words: &Vec<String>,
    input: &mut I,
    out: &mut O,
    _keeper: &mut K,
    _steps: &mut Steps<L>,
) -> u8
    // At any status but 4 the whole text of how the run ended was written.
    ensures whole { result ≢ 4 → (end : End) × (text : List ℕ) × (result ≡ code_of end)
        × RunEnds (IsCheck words.now) (I.left input.old) (I.left input.new) (Rises (I.faults input.old) (I.faults input.new)) end text
        × Wrote (O.written out.old) (O.written out.new) text }

    // At 4 a front of it was.
    ensures cut { result ≡ 4 → (end : End) × (text : List ℕ)
        × RunEnds (IsCheck words.now) (I.left input.old) (I.left input.new) (Rises (I.faults input.old) (I.faults input.new)) end text
        × WroteFront (O.written out.old) (O.written out.new) text }
    ensures output_fault { result ≡ 4 → Rises (O.faults out.old) (O.faults out.new) }

    // A bundle that has answers gets its report, unless a call outside failed or memory was wanting.
    ensures completes { (bytes : List ℕ) (answers : Results) → IsCheck words.now → I.left input.old ≡ Some bytes → AnswersOf bytes answers
        → ¬ (Rises (I.faults input.old) (I.faults input.new)) → ¬ (Rises (O.faults out.old) (O.faults out.new)) → IsReportOrMemory result }
    ensures input { Moved (I.faults input.old) (I.quiet input.old) (I.faults input.new) (I.quiet input.new) }
    ensures output { O.faults out.old ≤ O.faults out.new }
    ensures keeper { K.faults _keeper.new ≡ K.faults _keeper.old }
    ensures steps { _steps.new ≡ _steps.old }
{
    one_bundle();
    answered_files_have_no_cause();
    let ending = run(alloc, words, input);
    match write_all(out, ending.text.as_slice()) {
        Ok(()) => ending.status.code(),
        Err(_) => Status::OutputFault.code(),
    }
}
