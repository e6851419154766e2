//! Where the bytes of a document come from.
ghost use Rattle.std.specs.Prelude.{◌≡◌, ◌≤◌, ℕ, List, Option, length, IfOk, OnOk, OnErr};
ghost use Rattle.px_ends.specs.Ends.{Gives, Rose};

/// A read failed.
#[derive(Clone, Copy, Debug, PartialEq, Eq)]
pub struct SourceFailed;

/// What gives bytes, piece by piece, and may fail (Rust `std::io::Read`).
pub trait Source {
    // The bytes left, where the source tells them.
    ghost left: { Self → Option (List ℕ) };

    // How many reads failed, up to the greatest u64.
    ghost faults: { Self → ℕ };

    /// Reads some bytes into the front of the buffer and says how many; 0 is the end, where the
    /// buffer is not empty. `SourceFailed` where the read failed: it took nothing, and counts as a
    /// fault. A read that went well counts as none.
    fn read(&mut self, buf: &mut [u8]) -> Result<usize, SourceFailed>
        ensures within { IfOk result (λ n. n ≤ length buf.new) }
        ensures gives { IfOk result (λ n. Gives n buf.new (left self.old) (left self.new)) }
        ensures steady { OnOk result (faults self.new ≡ faults self.old) }
        ensures kept { OnErr result (left self.new ≡ left self.old) }
        ensures rose { OnErr result (Rose (faults self.old) (faults self.new)) }
        ensures counted { faults self.old ≤ faults self.new };
}
