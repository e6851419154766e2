//! Where the bytes of a document go.
ghost use Rattle.std.specs.Prelude.{◌≡◌, ◌<◌, ◌≤◌, ◌⊎◌, ℕ, List, Option, length, IfOk, OnErr};
ghost use Rattle.px_ends.specs.Ends.{Takes, Rose};

/// A write failed.
#[derive(Clone, Copy, Debug, PartialEq, Eq)]
pub struct SinkFailed;

/// What takes bytes, piece by piece, and may fail (Rust `std::io::Write`).
pub trait Sink {
    // The bytes taken, where the sink tells them.
    ghost taken: { Self → Option (List ℕ) };

    // How many writes failed or took nothing, up to the greatest u64.
    ghost faults: { Self → ℕ };

    /// Writes some bytes from the front of the piece and says how many. To take nothing of a piece
    /// that is not empty counts as a fault. `SinkFailed` where the write failed: it took nothing, and
    /// counts as a fault. Any other write counts as none.
    fn write(&mut self, piece: &[u8]) -> Result<usize, SinkFailed>
        ensures within { IfOk result (λ n. n ≤ length piece.now) }
        ensures takes { IfOk result (λ n. Takes n piece.now (taken self.old) (taken self.new)) }
        ensures nothing { IfOk result (λ n.
            n ≡ 0 → 0 < length piece.now → Rose (faults self.old) (faults self.new)) }
        ensures steady { IfOk result (λ n.
            (0 < n) ⊎ (length piece.now ≡ 0) → faults self.new ≡ faults self.old) }
        ensures kept { OnErr result (taken self.new ≡ taken self.old) }
        ensures rose { OnErr result (Rose (faults self.old) (faults self.new)) }
        ensures counted { faults self.old ≤ faults self.new };
}
