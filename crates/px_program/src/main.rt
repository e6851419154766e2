//! The program `px`: `px run < document.json` writes the frame that a document's steps make.
#![tactic(auto)]

ghost use Rattle.std.specs.Prelude.{◌≡◌, ◌<◌, ◌↔◌, ◌⊎◌, map, string_bytes};
ghost use Rattle.std.specs.IoError.{error_kind};
ghost use Rattle.px_steps.specs.Run.{IsCommand};

use px_column::Steps;
use px_steps::run::run;
use px_steps::{Status, StdinSource, StdoutSink};
use std::env;
use std::io::{self, ErrorKind};
use std::marker::Brand;
use std::process::ExitCode;
use std::sync::ledger::{Blank, Ledger};

// The process's words after the program's name.
fn read_words(rt: &HostRuntime) -> io::Result<Vec<String>> {
    let words = env::args(rt)?.skip(1).collect(rt.alloc())?;
    Ok(words)
}

// Runs the words over the standard input and output, with counters that begin at 0.
fn run_words<L: Ledger, M: Ledger>(
    rt: &HostRuntime,
    words: &[String],
    kernels: Blank,
    groupings: Blank,
) -> Status
    requires kernels_name { kernels.name ≡ L.name }
    requires kernels_parts { kernels.parts ≡ L.parts }
    requires kernels_some { 0 < kernels.parts }
    requires groupings_name { groupings.name ≡ M.name }
    requires groupings_parts { groupings.parts ≡ M.parts }
    requires groupings_some { 0 < groupings.parts }
    ensures { (result ≡ Status.Usage) ↔ (¬ IsCommand (map string_bytes words.now)) }
{
    let mut source = StdinSource::new(rt.reader());
    let mut sink = StdoutSink::new(io::writer(rt));
    let mut kernels = Steps::<L>::new(kernels);
    let mut groupings = Steps::<M>::new(groupings);
    run(
        rt.alloc(),
        words,
        &mut source,
        &mut sink,
        &mut kernels,
        &mut groupings,
    )
}

// How the program ends where its words cannot be read.
fn unread_status(error: &io::Error) -> Status
    ensures memory { (result ≡ Status.OutOfMemory) ↔ (error_kind error.now ≡ ErrorKind.OutOfMemory) }
    ensures told { (result ≡ Status.OutOfMemory) ⊎ (result ≡ Status.Usage) }
{
    match error.kind() {
        ErrorKind::OutOfMemory => Status::OutOfMemory,
        _ => Status::Usage,
    }
}

fn main(rt: HostRuntime) -> ExitCode {
    let words = match read_words(&rt) {
        Ok(words) => words,
        Err(e) => return ExitCode::from(unread_status(&e).number()),
    };
    let status = run_words::<Brand, Brand>(&rt, &words, Blank::new(1), Blank::new(1));
    if status == Status::Usage {
        let _ = eprintln!(rt; "usage: px run < document.json");
    }
    ExitCode::from(status.number())
}
