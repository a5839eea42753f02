//! The program: it reads a bundle of Java files from standard input, judges their lock promises and
//! prints the report. Here are the words, the reading of the input, the writing of the output and
//! how they are joined; what a file, a finding and a report are is in the crates below.
#![tactic(auto)]

mod adapters;
mod check;
mod desk;
mod intake;
mod output;
mod status;
#[cfg(test)]
mod tests;
mod words;

use adapters::{ReadSource, WriteSink};
use desk::desk_main;
use desk_base::{MemKeeper, Steps};
use status::Status;
use std::alloc::AllocError;
use std::process::ExitCode;
use std::{env, io};

// The words after the program's name.
fn words_of(rt: &HostRuntime) -> io::Result<Vec<String>> {
    let mut words = Vec::new(rt.alloc());
    for word in env::args(rt)?.skip(1) {
        words.push(word).map_err(AllocError::from)?;
    }
    Ok(words)
}

fn main(rt: HostRuntime) -> ExitCode {
    let mut out = WriteSink {
        writer: io::writer(&rt),
        faults: 0,
    };
    let Ok(words) = words_of(&rt) else {
        let _ = output::write_all(&mut out, Status::Memory.line().as_bytes());
        return ExitCode::from(Status::Memory.code());
    };
    let mut input = ReadSource {
        reader: rt.reader(),
        faults: 0,
    };
    let mut keeper = MemKeeper;
    let mut steps = Steps::new(());
    let code = desk_main(
        rt.alloc(),
        &words,
        &mut input,
        &mut out,
        &mut keeper,
        &mut steps,
    );
    ExitCode::from(code)
}
