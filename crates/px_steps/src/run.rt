//! The command `run`: a document is read, its steps are run, and the reply is written.
ghost use Rattle.std.specs.Prelude.{◌≡◌, ◌≢◌, ◌↔◌, ◌⊎◌, ◌+◌, ◌≤◌, ℕ, List, [], Some, None, IfSome, IsTrue, map, string_bytes};
ghost use Rattle.px_document.specs.Document.{Doc};
ghost use Rattle.px_ends.specs.Ends.{GivesFront, Rose, TakesAll, TakesPart};
ghost use Rattle.px_text.specs.Label.{bad_document_line};
ghost use Rattle.px_frame.specs.External.{alone};
ghost use Rattle.px_answers.specs.Counted.{RisesAtMost};
ghost use Rattle.px_steps.specs.Plain.{AreValid, groupings_of, kernels_of, most_kernels_of};
ghost use Rattle.px_document.specs.DocumentText.{IsDocument};
ghost use Rattle.px_steps.specs.Run.{Calm, Ends, IsCommand, Silent};

use crate::reply::{Reply, reply_to};
use crate::status::Status;
use px_column::Steps;
use px_ends::{ReadEnd, Sink, Source, read_all, write_all};
use std::alloc::Global;
use std::sync::ledger::Ledger;

fn is_command(words: &[String]) -> bool
    ensures { IsTrue result ↔ IsCommand (map string_bytes words.now) }
{
    match words {
        [word] => word.as_str() == "run",
        _ => false,
    }
}

fn bad_document_line() -> &'static [u8]
    ensures { result.now ≡ bad_document_line }
{
    b"error: BadDocument\n"
}

// Writes the text, and tells `done` where all of it was taken.
fn write_text<K: Sink>(sink: &mut K, text: &[u8], done: Status) -> Status
    ensures ends { (result ≡ done) × TakesAll text.now (K.taken sink.old) (K.taken sink.new)
        ⊎ (result ≡ Status.WriteFault) × TakesPart text.now (K.taken sink.old) (K.taken sink.new)
        × Rose (K.faults sink.old) (K.faults sink.new) }
    ensures no_write_fault { result ≢ Status.WriteFault → K.faults sink.new ≡ K.faults sink.old }
    ensures counted { K.faults sink.old ≤ K.faults sink.new }
{
    match write_all(sink, text) {
        Ok(()) => done,
        Err(_) => Status::WriteFault,
    }
}

// Writes the reply for bytes that were read to their end.
fn answer<K: Sink, L: Ledger, M: Ledger>(
    alloc: Global,
    bytes: &[u8],
    sink: &mut K,
    kernels: &mut Steps<L>,
    groupings: &mut Steps<M>,
) -> Status
    ensures ends { Ends result bytes.now (Some []) (K.taken sink.old) (K.taken sink.new) }
    ensures read { (result ≢ Status.Usage) × (result ≢ Status.ReadFault) }
    ensures write_fault { result ≡ Status.WriteFault →
        Rose (K.faults sink.old) (K.faults sink.new) }
    ensures no_write_fault { result ≢ Status.WriteFault → K.faults sink.new ≡ K.faults sink.old }
    ensures counted { K.faults sink.old ≤ K.faults sink.new }
    ensures grouped { (doc : Doc) →
        result ≡ Status.Done →
        IsDocument bytes.now doc →
        groupings.new ≡ groupings.old + groupings_of doc.steps }
    ensures ticks { (doc : Doc) →
        result ≡ Status.Done →
        IsDocument bytes.now doc →
        kernels.old + kernels_of doc.steps ≤ kernels.new }
    ensures most { (doc : Doc) →
        result ≡ Status.Done →
        IsDocument bytes.now doc →
        RisesAtMost (most_kernels_of doc.steps (alone doc.columns)) kernels.old kernels.new }
{
    match reply_to(alloc, bytes, kernels, groupings) {
        Ok(Reply::Frame(text)) => write_text(sink, text.as_slice(), Status::Done),
        Ok(Reply::Refusal(text)) => write_text(sink, text.as_slice(), Status::Refused),
        Ok(Reply::BadDocument) => write_text(sink, bad_document_line(), Status::BadDocument),
        Err(_) => Status::OutOfMemory,
    }
}

// Reads the document and writes the reply.
fn run_command<S: Source, K: Sink, L: Ledger, M: Ledger>(
    alloc: Global,
    source: &mut S,
    sink: &mut K,
    kernels: &mut Steps<L>,
    groupings: &mut Steps<M>,
) -> Status
    ensures ends { IfSome (S.left source.old) (λ b.
        Ends result b (S.left source.new) (K.taken sink.old) (K.taken sink.new)) }
    ensures silent { Silent result (K.taken sink.old) (K.taken sink.new) }
    ensures taken { GivesFront (S.left source.old) (S.left source.new) }
    ensures command { result ≢ Status.Usage }
    ensures read_fault { result ≡ Status.ReadFault →
        Rose (S.faults source.old) (S.faults source.new) }
    ensures write_fault { result ≡ Status.WriteFault →
        Rose (K.faults sink.old) (K.faults sink.new) }
    ensures no_read_fault { result ≢ Status.ReadFault →
        S.faults source.new ≡ S.faults source.old }
    ensures no_write_fault { result ≢ Status.WriteFault →
        K.faults sink.new ≡ K.faults sink.old }
    ensures read_counted { S.faults source.old ≤ S.faults source.new }
    ensures write_counted { K.faults sink.old ≤ K.faults sink.new }
    ensures grouped { (b : List ℕ) (doc : Doc) →
        result ≡ Status.Done →
        S.left source.old ≡ Some b →
        IsDocument b doc →
        groupings.new ≡ groupings.old + groupings_of doc.steps }
    ensures ticks { (b : List ℕ) (doc : Doc) →
        result ≡ Status.Done →
        S.left source.old ≡ Some b →
        IsDocument b doc →
        kernels.old + kernels_of doc.steps ≤ kernels.new }
    ensures most { (b : List ℕ) (doc : Doc) →
        result ≡ Status.Done →
        S.left source.old ≡ Some b →
        IsDocument b doc →
        RisesAtMost (most_kernels_of doc.steps (alone doc.columns)) kernels.old kernels.new }
{
    match read_all(alloc, source) {
        Ok(bytes) => answer(alloc, &bytes, sink, kernels, groupings),
        Err(ReadEnd::TooLong) => write_text(sink, bad_document_line(), Status::BadDocument),
        Err(ReadEnd::Failed) => Status::ReadFault,
        Err(ReadEnd::OutOfMemory) => Status::OutOfMemory,
    }
}

/// What the program does with its words. Where they are exactly the one word `run`: it reads the
/// source to its end as one document and writes the text of the frame that the document's steps make
/// (`Done`), the line of a refusal or a fault (`Refused`), or the line of a bad document
/// (`BadDocument`), which 2^26 bytes and more are too, of which that many are read. The text is
/// complete before the first of it is written. `ReadFault`, `WriteFault` and `OutOfMemory` tell why
/// it stopped; it tries nothing again, so a read that fails ends it with `ReadFault`, and a write
/// that fails with `WriteFault`. However it ends, it takes at most 2^26 bytes from the source. With
/// other words it touches nothing and tells `Usage`.
pub fn run<S: Source, K: Sink, L: Ledger, M: Ledger>(
    alloc: Global,
    words: &[String],
    source: &mut S,
    sink: &mut K,
    kernels: &mut Steps<L>,
    groupings: &mut Steps<M>,
) -> Status
    // `Usage` is told exactly for other words, and then nothing is touched.
    ensures usage { (result ≡ Status.Usage) ↔ (¬ IsCommand (map string_bytes words.now)) }
    ensures untouched { result ≡ Status.Usage →
        (source.new ≡ source.old) × (sink.new ≡ sink.old)
        × (kernels.new ≡ kernels.old) × (groupings.new ≡ groupings.old) }
    // What was read and written, where the source tells its bytes.
    ensures ends { IfSome (S.left source.old) (λ b.
        Ends result b (S.left source.new) (K.taken sink.old) (K.taken sink.new)) }
    // What was not written, whatever the source tells.
    ensures silent { Silent result (K.taken sink.old) (K.taken sink.new) }
    // At most 2^26 bytes are taken from the source, whatever the status.
    ensures taken { GivesFront (S.left source.old) (S.left source.new) }
    // No fault is told that was not there.
    ensures read_fault { result ≡ Status.ReadFault →
        Rose (S.faults source.old) (S.faults source.new) }
    ensures write_fault { result ≡ Status.WriteFault →
        Rose (K.faults sink.old) (K.faults sink.new) }
    // No fault that was there is kept back.
    ensures no_read_fault { result ≢ Status.ReadFault →
        S.faults source.new ≡ S.faults source.old }
    ensures no_write_fault { result ≢ Status.WriteFault →
        K.faults sink.new ≡ K.faults sink.old }
    ensures read_counted { S.faults source.old ≤ S.faults source.new }
    ensures write_counted { K.faults sink.old ≤ K.faults sink.new }
    // A document of valid steps is done, where no read and no write fails and memory is not wanting.
    ensures complete { (b : List ℕ) (doc : Doc) →
        S.left source.old ≡ Some b →
        IsDocument b doc →
        AreValid doc.steps (alone doc.columns) →
        IsCommand (map string_bytes words.now) →
        Calm (S.faults source.old) (S.faults source.new) →
        Calm (K.faults sink.old) (K.faults sink.new) →
        (result ≡ Status.Done) ⊎ (result ≡ Status.OutOfMemory) }
    // A frame is made by one grouping for each window and each group step.
    ensures grouped { (b : List ℕ) (doc : Doc) →
        result ≡ Status.Done →
        S.left source.old ≡ Some b →
        IsDocument b doc →
        groupings.new ≡ groupings.old + groupings_of doc.steps }
    // Kernels run at least once for each node that has one in a flat expression.
    ensures ticks { (b : List ℕ) (doc : Doc) →
        result ≡ Status.Done →
        S.left source.old ≡ Some b →
        IsDocument b doc →
        kernels.old + kernels_of doc.steps ≤ kernels.new }
    // And at most as often as the costs of the expressions say, where each has one.
    ensures most { (b : List ℕ) (doc : Doc) →
        result ≡ Status.Done →
        S.left source.old ≡ Some b →
        IsDocument b doc →
        RisesAtMost (most_kernels_of doc.steps (alone doc.columns)) kernels.old kernels.new }
{
    if is_command(words) {
        run_command(alloc, source, sink, kernels, groupings)
    } else {
        Status::Usage
    }
}
