ghost use Rattle.std.specs.Prelude.{◌≡◌, ◌≤◌, length, IfOk};
ghost use Rattle.promise_desk.specs.Intake.{most_bytes};
ghost use Rattle.promise_desk.specs.Check.{is_inconsistent};
ghost use Rattle.promise_desk.specs.Status.{bad_bundle_line, unread_line, unfit_line, duplicate_line, limit_line, kind_of, place_of};
ghost use Rattle.report.specs.Report.{report_bytes};
ghost use Rattle.promise_desk.specs.Endings.{EndsAs, text_of, status_of};

use crate::status::Status;
use bundle::{BundleError, read_bundle};
use consistency::Verdict;
use desk_base::{Bytes, LimitName, Name, OutOfMemory};
use java_reader::ReadError;
use project_judge::{ProjectError, judge_project};
use report::{Answers, report_text};
use result_records::Put;
use std::alloc::Global;

/// How a run ends, and the text that it writes.
#[derive(Drop)]
pub struct Ending {
    pub status: Status,
    pub text: Text,
}

/// A text that is always the same, or one that was made.
#[derive(Drop)]
pub enum Text {
    Fixed(&'static str),
    Made(Bytes),
}

impl Text {
    pub fn as_slice(&self) -> &[u8]
        ensures { result.now ≡ text_of self.now }
    {
        match self {
            Text::Fixed(text) => text.as_bytes(),
            Text::Made(bytes) => bytes.as_slice(),
        }
    }
}

fn is_inconsistent(answers: &Answers) -> bool
    ensures { result ≡ is_inconsistent answers.now }
{
    answers
        .verdicts
        .as_slice()
        .iter()
        .any(|row| row.verdict == Verdict::Inconsistent)
}

// The report of answers.
fn report(alloc: Global, answers: &Answers) -> Result<Ending, OutOfMemory>
    ensures { IfOk result (λ ending. (ending.status ≡ status_of answers.now) × (text_of ending.text ≡ report_bytes answers.now)) }
{
    let text = Text::Made(report_text(alloc, answers)?);
    let status = if is_inconsistent(answers) {
        Status::Inconsistent
    } else {
        Status::Consistent
    };
    Ok(Ending { status, text })
}

// The line that names the place at which bytes stop being a bundle.
fn bad_bundle(alloc: Global, at: usize) -> Result<Ending, OutOfMemory>
    ensures { IfOk result (λ ending. (ending.status ≡ Status.BadBundle) × (text_of ending.text ≡ bad_bundle_line at)) }
{
    let mut line = Bytes::from_slice(alloc, b"bad bundle at ")?;
    line.put_number(at as u64)?;
    line.append(b"\n")?;
    Ok(Ending {
        status: Status::BadBundle,
        text: Text::Made(line),
    })
}

// What is at fault in a file that isn't read. The desk looks at the bytes of files before it reads them,
// so the one limit here is that of a name.
fn kind_of(why: ReadError) -> &'static str
    ensures { result.now ≡ kind_of why }
{
    match why {
        ReadError::Limit { .. } => "name",
        ReadError::Lex { .. } => "lex",
        ReadError::Grammar { .. } => "grammar",
        ReadError::OutOfMemory => "",
    }
}

fn place_of(why: ReadError) -> u32
    ensures { result ≡ place_of why }
{
    match why {
        ReadError::Limit { at, .. } | ReadError::Lex { at } | ReadError::Grammar { at } => at,
        ReadError::OutOfMemory => 0,
    }
}

// The line that names a file which isn't read, and the place at which it is at fault.
fn unread(alloc: Global, path: &[u8], why: ReadError) -> Result<Ending, OutOfMemory>
    ensures { IfOk result (λ ending. (ending.status ≡ Status.Unreadable) × (text_of ending.text ≡ unread_line path.now why)) }
{
    let mut line = Bytes::from_slice(alloc, b"unreadable ")?;
    line.append(path)?;
    line.append(b" ")?;
    line.append(kind_of(why).as_bytes())?;
    line.append(b" at ")?;
    line.put_number(u64::from(place_of(why)))?;
    line.append(b"\n")?;
    Ok(Ending {
        status: Status::Unreadable,
        text: Text::Made(line),
    })
}

// The line that names a file which has a type that isn't judged so far.
fn unfit(alloc: Global, path: &[u8]) -> Result<Ending, OutOfMemory>
    ensures { IfOk result (λ ending. (ending.status ≡ Status.Unreadable) × (text_of ending.text ≡ unfit_line path.now)) }
{
    let mut line = Bytes::from_slice(alloc, b"unreadable ")?;
    line.append(path)?;
    line.append(b" form at 0\n")?;
    Ok(Ending {
        status: Status::Unreadable,
        text: Text::Made(line),
    })
}

// The line of a type whose name is used before.
fn duplicate(alloc: Global, name: &[u8], first: &[u8], second: &[u8]) -> Result<Ending, OutOfMemory>
    ensures { IfOk result (λ ending. (ending.status ≡ Status.DuplicateType) × (text_of ending.text ≡ duplicate_line name.now first.now second.now)) }
{
    let mut line = Bytes::from_slice(alloc, b"type ")?;
    line.append(name)?;
    line.append(b" in ")?;
    line.append(first)?;
    line.append(b" and ")?;
    line.append(second)?;
    line.append(b"\n")?;
    Ok(Ending {
        status: Status::DuplicateType,
        text: Text::Made(line),
    })
}

/// The line of a limit that is passed.
pub fn past_limit(alloc: Global, which: LimitName) -> Result<Ending, OutOfMemory>
    ensures { IfOk result (λ ending. (ending.status ≡ Status.Limit) × (text_of ending.text ≡ limit_line which)) }
{
    let mut line = Bytes::from_slice(alloc, b"limit ")?;
    line.append(which.text())?;
    line.append(b" ")?;
    line.put_number(which.max())?;
    line.append(b"\n")?;
    Ok(Ending {
        status: Status::Limit,
        text: Text::Made(line),
    })
}

/// Judges the bundle that the bytes are, and makes the report or the line of what they are instead.
pub fn judge_bundle(alloc: Global, bytes: &[u8]) -> Result<Ending, OutOfMemory>
    requires { length bytes.now ≤ most_bytes }
    ensures { IfOk result (EndsAs bytes.now) }
{
    let files = match read_bundle(alloc, bytes) {
        Ok(files) => files,
        Err(BundleError::Bad { at }) => return bad_bundle(alloc, at),
        Err(BundleError::OutOfMemory) => return Err(OutOfMemory),
    };
    match judge_project(alloc, files.as_slice()) {
        Ok(answers) => report(alloc, &answers),
        Err(ProjectError::Limit(which)) => past_limit(alloc, which),
        Err(ProjectError::Unread(path, why)) => unread(alloc, path, why),
        Err(ProjectError::Unfit(path)) => unfit(alloc, path),
        Err(ProjectError::Repeated(name, first, second)) => duplicate(
            alloc,
            name.as_slice(),
            first.as_slice(),
            second.as_slice(),
        ),
        Err(ProjectError::OutOfMemory) => Err(OutOfMemory),
    }
}
