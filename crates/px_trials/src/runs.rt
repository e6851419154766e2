//! Runs whose words are others, whose reads and writes are short or fail, and what a run is made of.
ghost use Rattle.std.specs.Prelude.{◌≡◌, ◌<◌};

use crate::library::TOTALS;
use crate::on_groups::document;
use px_column::{Name, Px, PxError, Steps};
use px_document::Document;
use px_ends::{LIMIT, read_all, write_all};
use px_frame::DataFrame;
use px_steps::run::run;
use px_steps::{
    MemorySink, MemorySource, Status, StdinSource, StdoutSink, are_unchunked, run_steps,
};
use px_trial_texts::{frame, is_text, text_of_frame};
use px_window::ExecutionState;
use std::alloc::Global;
use std::marker::Brand;
use std::sync::ledger::{Blank, Ledger};
use std::test::Fail;

const DOCUMENT: &str =
    r#"{"columns":[{"name":"k","type":"Int64","values":[7,9,7,7]},{"name":"x","type":"Int64","values":[0,1,2,3]}],"steps":[{"group":{"keys":[{"col":"k"}],"aggs":[{"agg":["Sum",{"col":"x"}]},{"len":null}],"chunks":null}}]}"#;

/// A column from outside.
const OUTSIDE: &str = r#"[{"name":"e","type":"Int64","values":[5,6,7,8]}]"#;

/// A select of that column and another.
const SUM_WITH_OUTSIDE: &str =
    r#"{"columns":[{"name":"k","type":"Int64","values":[7,9,7,7]},{"name":"x","type":"Int64","values":[0,1,2,3]}],"steps":[{"select":[{"bin":["Plus",{"col":"e"},{"col":"x"}]}]}]}"#;

/// A select of that column behind a filter that leaves three rows.
const FILTER_BEFORE_OUTSIDE: &str =
    r#"{"columns":[{"name":"k","type":"Int64","values":[7,9,7,7]},{"name":"x","type":"Int64","values":[0,1,2,3]}],"steps":[{"filter":{"bin":["Gt",{"col":"x"},{"lit":{"type":"Int64","value":0}}]}},{"select":[{"col":"e"}]}]}"#;

fn run_with_counters<L: Ledger, M: Ledger>(
    alloc: Global,
    words: &[String],
    source: &mut MemorySource,
    sink: &mut MemorySink,
    kernels: Blank,
    groupings: Blank,
) -> Status
    requires kernels_name { kernels.name ≡ L.name }
    requires kernels_parts { kernels.parts ≡ L.parts }
    requires kernels_some { 0 < kernels.parts }
    requires groupings_name { groupings.name ≡ M.name }
    requires groupings_parts { groupings.parts ≡ M.parts }
    requires groupings_some { 0 < groupings.parts }
{
    let mut kernels = Steps::<L>::new(kernels);
    let mut groupings = Steps::<M>::new(groupings);
    run(alloc, words, source, sink, &mut kernels, &mut groupings)
}

/// How a run of one word ends.
fn run_word(
    alloc: Global,
    word: &str,
    source: &mut MemorySource,
    sink: &mut MemorySink,
) -> Px<Status> {
    let words = vec![in alloc; String::from_str(alloc, word)?]?;
    let kernels = Blank::new(1);
    let groupings = Blank::new(1);
    Ok(run_with_counters::<Brand, Brand>(alloc, &words, source, sink, kernels, groupings))
}

/// The document, so many bytes a read.
fn source(alloc: Global, piece: u32, fails: Vec<u32>) -> Px<MemorySource>
    requires { 0 < piece }
{
    let bytes = Vec::from_slice(alloc, DOCUMENT.as_bytes())?;
    Ok(MemorySource::new(bytes, piece, fails))
}

#[test]
fn other_words_touch_nothing(rt: HostRuntime) -> Result<(), Fail> {
    let alloc = rt.alloc();
    let mut source = source(alloc, 16, Vec::new(alloc))?;
    let mut sink = MemorySink::new(alloc, 100, 10, Vec::new(alloc))?;
    let status = run_word(alloc, "runs", &mut source, &mut sink)?;
    assert_eq!(rt; status, Status::Usage);
    assert!(rt; sink.bytes().is_empty());
    let status = run_word(alloc, "run", &mut source, &mut sink)?;
    assert_eq!(rt; status, Status::Done);
    assert_eq!(rt; sink.bytes(), TOTALS.as_bytes());
    Ok(())
}

/// Whether a run so ends, and writes this.
fn is_run(
    alloc: Global,
    mut source: MemorySource,
    mut sink: MemorySink,
    status: Status,
    written: &[u8],
) -> Px<bool> {
    let ended = run_word(alloc, "run", &mut source, &mut sink)?;
    Ok(ended == status && sink.bytes() == written)
}

#[test]
fn pieces_of_one_byte_change_nothing(rt: HostRuntime) -> Result<(), Fail> {
    let alloc = rt.alloc();
    let source = source(alloc, 1, Vec::new(alloc))?;
    let sink = MemorySink::new(alloc, 100, 1, Vec::new(alloc))?;
    assert!(rt; is_run(alloc, source, sink, Status::Done, TOTALS.as_bytes())?);
    Ok(())
}

#[test]
fn after_a_failed_read_nothing_is_written(rt: HostRuntime) -> Result<(), Fail> {
    let alloc = rt.alloc();
    let source = source(alloc, 16, vec![in alloc; 2]?)?;
    let sink = MemorySink::new(alloc, 100, 10, Vec::new(alloc))?;
    assert!(rt; is_run(alloc, source, sink, Status::ReadFault, b"")?);
    Ok(())
}

#[test]
fn after_a_failed_write_a_front_is_written(rt: HostRuntime) -> Result<(), Fail> {
    let alloc = rt.alloc();
    let source = source(alloc, 16, Vec::new(alloc))?;
    let sink = MemorySink::new(alloc, 100, 10, vec![in alloc; 2]?)?;
    assert!(rt; is_run(alloc, source, sink, Status::WriteFault, b"[\"k\",\"x\",\"")?);
    Ok(())
}

#[test]
fn a_full_sink_holds_a_front(rt: HostRuntime) -> Result<(), Fail> {
    let alloc = rt.alloc();
    let source = source(alloc, 16, Vec::new(alloc))?;
    let sink = MemorySink::new(alloc, 12, 100, Vec::new(alloc))?;
    assert!(rt;
        is_run(
            alloc,
            source,
            sink,
            Status::WriteFault,
            b"[\"k\",\"x\",\"le"
        )?
    );
    Ok(())
}

#[test]
fn a_text_too_long_is_no_document(rt: HostRuntime) -> Result<(), Fail> {
    let alloc = rt.alloc();
    let bytes = vec![in alloc; b' '; LIMIT]?;
    let source = MemorySource::new(bytes, u32::MAX, Vec::new(alloc));
    let sink = MemorySink::new(alloc, 100, 10, Vec::new(alloc))?;
    assert!(rt;
        is_run(
            alloc,
            source,
            sink,
            Status::BadDocument,
            b"error: BadDocument\n"
        )?
    );
    Ok(())
}

/// What a document's steps make, beside whose frames stands one from outside.
fn beside_outside<L: Ledger, M: Ledger>(
    alloc: Global,
    document: &Document,
    outside: DataFrame,
    kernels: Blank,
    groupings: Blank,
) -> Px<DataFrame>
    requires kernels_name { kernels.name ≡ L.name }
    requires kernels_parts { kernels.parts ≡ L.parts }
    requires kernels_some { 0 < kernels.parts }
    requires groupings_name { groupings.name ≡ M.name }
    requires groupings_parts { groupings.parts ≡ M.parts }
    requires groupings_some { 0 < groupings.parts }
{
    if !are_unchunked(&document.steps) {
        return Err(PxError::OutOfBounds);
    }
    let mut state = ExecutionState::new(alloc, false)?;
    state.ext_contexts.push(outside)?;
    let mut kernels = Steps::<L>::new(kernels);
    let mut groupings = Steps::<M>::new(groupings);
    run_steps(
        alloc,
        &document.frame,
        &document.steps,
        &mut state,
        &mut kernels,
        &mut groupings,
    )
}

/// The same of a text that is a document, as text.
fn run_beside(alloc: Global, text: &str) -> Result<Px<Name>, Fail> {
    let document = document(alloc, text)?;
    let outside = frame(alloc, OUTSIDE)?;
    let kernels = Blank::new(1);
    let groupings = Blank::new(1);
    let made = beside_outside::<Brand, Brand>(alloc, &document, outside, kernels, groupings);
    Ok(text_of_frame(alloc, made))
}

#[test]
fn a_column_from_outside_stands_beside_the_frame(rt: HostRuntime) -> Result<(), Fail> {
    let made = run_beside(rt.alloc(), SUM_WITH_OUTSIDE)?;
    assert!(rt; is_text(made, "[\"e\"]\n[\"Int64\"]\n[5]\n[7]\n[9]\n[11]\n")?);
    Ok(())
}

#[test]
fn a_column_from_outside_of_another_height_misfits(rt: HostRuntime) -> Result<(), Fail> {
    let made = run_beside(rt.alloc(), FILTER_BEFORE_OUTSIDE)?;
    assert!(rt; is_text(made, "error: ShapeMismatch\n")?);
    Ok(())
}

#[test]
fn a_reader_is_read_to_its_end_and_a_writer_takes_all(rt: HostRuntime) -> Result<(), Fail> {
    let alloc = rt.alloc();
    let mut source = StdinSource::new(b"bytes".as_slice());
    let read = read_all(alloc, &mut source)?;
    assert_eq!(rt; read.as_slice(), b"bytes".as_slice());
    let mut taken = Vec::new(alloc);
    write_all(&mut StdoutSink::new(&mut taken), &read)?;
    assert_eq!(rt; taken.as_slice(), b"bytes".as_slice());
    Ok(())
}
