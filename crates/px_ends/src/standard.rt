//! The standard input and output of the process, of whose bytes nothing is told.
ghost use Rattle.std.specs.Prelude.{◌≡◌};

use crate::sink::{Sink, SinkFailed};
use crate::source::{Source, SourceFailed};
use std::io::{Read, Write};
use std::marker::Model;

/// A reader, as the standard input, that counts its failures; seen as their count. A read that was
/// interrupted is a failure.
#[derive(Drop)]
pub struct StdinSource<R> {
    reader: R,
    faults: u64,
}

impl<R> Model for StdinSource<R> {
    ghost use Rattle.std.specs.Prelude.{ℕ};

    ghost Value = { ℕ };

    ghost view = { λ s. s.faults };
}

impl<R: Read> StdinSource<R> {
    /// A source over this reader, with no fault so far.
    pub fn new(reader: R) -> StdinSource<R>
        ensures { result ≡ 0 }
    {
        StdinSource { reader, faults: 0 }
    }
}

impl<R: Read> Source for StdinSource<R> {
    ghost use Rattle.std.specs.Prelude.{None};

    ghost left = { λ _. None };

    ghost faults = { λ s. s };

    fn read(&mut self, buf: &mut [u8]) -> Result<usize, SourceFailed> {
        match self.reader.read(buf) {
            Ok(count) => Ok(count),
            Err(_) => {
                self.faults = self.faults.saturating_add(1);
                Err(SourceFailed)
            }
        }
    }
}

/// A writer, as the standard output, that counts its failures; seen as their count. A write that was
/// interrupted is a failure.
#[derive(Drop)]
pub struct StdoutSink<W> {
    writer: W,
    faults: u64,
}

impl<W> Model for StdoutSink<W> {
    ghost use Rattle.std.specs.Prelude.{ℕ};

    ghost Value = { ℕ };

    ghost view = { λ s. s.faults };
}

impl<W: Write> StdoutSink<W> {
    /// A sink over this writer, with no fault so far.
    pub fn new(writer: W) -> StdoutSink<W>
        ensures { result ≡ 0 }
    {
        StdoutSink { writer, faults: 0 }
    }
}

impl<W: Write> Sink for StdoutSink<W> {
    ghost use Rattle.std.specs.Prelude.{None};

    ghost taken = { λ _. None };

    ghost faults = { λ s. s };

    fn write(&mut self, piece: &[u8]) -> Result<usize, SinkFailed> {
        match self.writer.write(piece) {
            Ok(count) => {
                if count == 0 && !piece.is_empty() {
                    self.faults = self.faults.saturating_add(1);
                }
                Ok(count)
            }
            Err(_) => {
                self.faults = self.faults.saturating_add(1);
                Err(SinkFailed)
            }
        }
    }
}
