//! A whole document read from a source, and a whole text written to a sink.
ghost use Rattle.std.specs.Prelude.{◌≡◌, ◌<◌, ◌≤◌, ◌^◌, length, vec_len, IfOk, OnOk, IfErr, OnErr};
ghost use Rattle.px_ends.specs.Ends.{GivesFront, IsAll, Rose, Stops, TakesAll, TakesPart};

use crate::sink::{Sink, SinkFailed};
use crate::source::Source;
use std::alloc::{AllocError, AllocFailed, Global};

/// The number of bytes from which on a document is refused.
pub const LIMIT: usize = 1 << 26;

// The most that one read asks for.
const PIECE: usize = 1 << 16;

/// Why a source was not read to its end.
#[derive(Clone, Copy, Debug, PartialEq, Eq)]
pub enum ReadEnd {
    /// It had `LIMIT` bytes or more, of which that many were read.
    TooLong,
    /// A read failed.
    Failed,
    /// There was no memory for what was read.
    OutOfMemory,
}

impl From<AllocError> for ReadEnd {
    ghost use Rattle.std.specs.Prelude.{◌≡◌};
    ghost use Rattle.px_ends.specs.declared.transfer.ReadEnd.TheVariants.{OutOfMemory};

    ghost from_gives = { λ _ e. e ≡ OutOfMemory };

    fn from(_e: AllocError) -> ReadEnd {
        ReadEnd::OutOfMemory
    }
}

impl<T: Drop> From<AllocFailed<T>> for ReadEnd {
    ghost use Rattle.std.specs.Prelude.{◌≡◌};
    ghost use Rattle.px_ends.specs.declared.transfer.ReadEnd.TheVariants.{OutOfMemory};

    ghost from_gives = { λ _ e. e ≡ OutOfMemory };

    fn from(_e: AllocFailed<T>) -> ReadEnd {
        ReadEnd::OutOfMemory
    }
}

fn buffer(alloc: Global, len: usize) -> Result<Vec<u8>, AllocError>
    ensures { IfOk result (λ v. vec_len v ≡ len) }
{
    vec![in alloc; 0; len]
}

/// All that the source has left, of which there are fewer than `LIMIT` bytes; `TooLong` where there
/// are more (`LIMIT` of them were read), `Failed` where a read failed, `OutOfMemory` where memory was
/// wanting. A read that fails is the last one and gives no other answer than `Failed`, and whatever
/// the answer, at most `LIMIT` bytes are taken.
pub fn read_all<S: Source>(alloc: Global, source: &mut S) -> Result<Vec<u8>, ReadEnd>
    ensures short { IfOk result (λ v. length v.items < 2 ^ 26) }
    ensures whole { IfOk result (λ v. IsAll v.items (S.left source.old) (S.left source.new)) }
    ensures steady { OnOk result (S.faults source.new ≡ S.faults source.old) }
    ensures stops { IfErr result (λ e.
        Stops e (S.left source.old) (S.left source.new) (S.faults source.old) (S.faults source.new)) }
    ensures front { GivesFront (S.left source.old) (S.left source.new) }
    ensures counted { S.faults source.old ≤ S.faults source.new }
{
    let mut piece = buffer(alloc, PIECE)?;
    let mut bytes = Vec::new(alloc);
    while bytes.len() < LIMIT {
        let room = PIECE.min(LIMIT - bytes.len());
        let part = &mut piece[..room];
        match source.read(part) {
            Ok(0) => return Ok(bytes),
            Ok(count) => bytes.extend_from_slice(&part[..count])?,
            Err(_) => return Err(ReadEnd::Failed),
        }
    }
    Err(ReadEnd::TooLong)
}

/// Writes all of the text; `SinkFailed` where a write failed or took nothing, after some front of
/// the text was taken. Such a write is the last one and gives no other answer.
pub fn write_all<K: Sink>(sink: &mut K, text: &[u8]) -> Result<(), SinkFailed>
    ensures whole { OnOk result (TakesAll text.now (K.taken sink.old) (K.taken sink.new)) }
    ensures steady { OnOk result (K.faults sink.new ≡ K.faults sink.old) }
    ensures part { OnErr result (TakesPart text.now (K.taken sink.old) (K.taken sink.new)) }
    ensures rose { OnErr result (Rose (K.faults sink.old) (K.faults sink.new)) }
    ensures counted { K.faults sink.old ≤ K.faults sink.new }
{
    let mut at = 0;
    while at < text.len() {
        let count = sink.write(&text[at..])?;
        if count == 0 {
            return Err(SinkFailed);
        }
        at += count;
    }
    Ok(())
}
