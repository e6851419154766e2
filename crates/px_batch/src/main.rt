//! The program `px_batch`: runs each line of standard input as a document, over memory, and writes
//! the number of the status and what the run wrote. A line that begins with `#` is a heading, and is
//! written as it is.
#![tactic(auto)]

ghost use Rattle.std.specs.Prelude.{◌≡◌, ◌≢◌, ◌<◌, ℕ, List, IfOk, OnOk, Some};
ghost use Rattle.std.specs.Io.KnownBytes.{Appends};
ghost use Rattle.px_batch.specs.Told.{IsTold};
ghost use Rattle.px_ends.specs.Ends.{Rose};
ghost use Rattle.px_steps.specs.Run.{Ends};

use px_column::{Px, Steps};
use px_steps::run::run;
use px_steps::{MemorySink, MemorySource, Status};
use std::alloc::Global;
use std::io::{self, BufRead, BufReader, Write};
use std::marker::Brand;
use std::sync::ledger::{Blank, Ledger};

// The bytes that a run may write.
const ROOM: u32 = 65536;

// Runs the document that a source holds, with counters that begin at 0.
fn run_document<L: Ledger, M: Ledger>(
    alloc: Global,
    source: &mut MemorySource,
    sink: &mut MemorySink,
    kernels: Blank,
    groupings: Blank,
) -> Px<Status>
    requires kernels_name { kernels.name ≡ L.name }
    requires kernels_parts { kernels.parts ≡ L.parts }
    requires kernels_some { 0 < kernels.parts }
    requires groupings_name { groupings.name ≡ M.name }
    requires groupings_parts { groupings.parts ≡ M.parts }
    requires groupings_some { 0 < groupings.parts }
    // How the run ends, over the bytes of the document.
    ensures ends { IfOk result (λ status.
        Ends status source.old.rest (Some source.new.rest) (Some sink.old.bytes) (Some sink.new.bytes)) }
    // No fault is told that was not there.
    ensures read_fault { IfOk result (λ status. status ≡ Status.ReadFault → Rose source.old.faults source.new.faults) }
    ensures write_fault { IfOk result (λ status. status ≡ Status.WriteFault → Rose sink.old.faults sink.new.faults) }
    // Its words are right.
    ensures command { IfOk result (λ status. status ≢ Status.Usage) }
{
    let mut words = Vec::new(alloc);
    words.push(String::from_str(alloc, "run")?)?;
    let mut kernels = Steps::<L>::new(kernels);
    let mut groupings = Steps::<M>::new(groupings);
    Ok(run(alloc, &words, source, sink, &mut kernels, &mut groupings))
}

// Writes how a run of a document ends, and what it writes.
fn write_reply<W: Write>(alloc: Global, out: &mut W, document: Vec<u8>) -> anyhow::Result<()>
    // Where the writer tells what it holds, that has grown by what is told of the document.
    ensures { OnOk result ((told : List ℕ) × IsTold document.items told × Appends (W.contents out.old) (W.contents out.new) told) }
{
    let mut source = MemorySource::new(document, 7, Vec::new(alloc));
    let mut sink = MemorySink::new(alloc, ROOM, 5, Vec::new(alloc))?;
    let kernels = Blank::new(1);
    let groupings = Blank::new(1);
    let status = run_document::<Brand, Brand>(alloc, &mut source, &mut sink, kernels, groupings)?;
    writeln!(out, "{}", status.number())?;
    out.write_all(sink.bytes())?;
    Ok(())
}

fn main(rt: HostRuntime) -> anyhow::Result<()> {
    let alloc = rt.alloc();
    let mut out = io::writer(&rt);
    for line in BufReader::new(alloc, rt.reader())?.split(alloc, b'\n') {
        let line = line?;
        if line.starts_with(b"#") {
            out.write_all(&line)?;
            out.write_all(b"\n")?;
        } else {
            write_reply(alloc, &mut out, line)?;
        }
    }
    Ok(())
}
