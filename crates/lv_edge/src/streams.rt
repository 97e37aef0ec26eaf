ghost use Rattle.std.specs.Prelude.{◌≡◌, ◌<◌, ◌≤◌, ℕ, List, Option, Result, ⊤, length, take, IfOk, OnErr};
ghost use Rattle.std.specs.Io.KnownBytes.{IsAtEnd};
ghost use Rattle.lv_edge.specs.Causes.{HasCause};
ghost use Rattle.lv_edge.specs.Streams.{Loses, Grows};
ghost use Rattle.lv_edge.specs.declared.failure.Failed.{Failed};

use crate::Failed;

/// What bytes are read from.
pub trait Source {
    /// The bytes that are left to read, or `None` for a source that doesn't tell them.
    ghost left: { Self → Option (List ℕ) };

    /// How often it has failed.
    ghost faults: { Self → ℕ };

    /// What else a read does, for a source that says more: from the source before, the answer and the
    /// buffer afterwards to the source afterwards.
    ghost reads: { Self → Result ℕ Failed → List ℕ → Self → Type 0 } = { λ _ _ _ _. ⊤ };

    /// Reads into the front of `buf`, and answers how many bytes came: 0 only at the end. What is in
    /// `buf` behind them is left open.
    ///
    /// `Failed` comes only where the count of faults rose in this call, and nothing was read then.
    fn read(&mut self, buf: &mut [u8]) -> Result<usize, Failed>
        requires { 0 < length buf.old }
        ensures bound { IfOk result (λ n. n ≤ length buf.new) }
        ensures bytes { IfOk result (λ n. Loses (left self.old) (left self.new) (take n buf.new)) }
        ensures end { IfOk result (λ n. n ≡ 0 → IsAtEnd (left self.old)) }
        ensures kept { OnErr result (left self.new ≡ left self.old) }
        ensures cause { HasCause (faults self.old) (faults self.new) result }
        ensures more { reads self.old result buf.new self.new };
}

/// What bytes are written to.
pub trait Sink {
    /// The bytes that were written, or `None` for a sink that doesn't tell them.
    ghost written: { Self → Option (List ℕ) };

    /// How often it has failed.
    ghost faults: { Self → ℕ };

    /// What else a write does, for a sink that says more: from the sink before, the piece and the answer
    /// to the sink afterwards.
    ghost writes: { Self → List ℕ → Result ℕ Failed → Self → Type 0 } = { λ _ _ _ _. ⊤ };

    /// Writes the front of `piece`, and answers how many bytes were taken, at least one.
    ///
    /// `Failed` comes only where the count of faults rose in this call, and nothing was written then.
    fn write(&mut self, piece: &[u8]) -> Result<usize, Failed>
        requires { 0 < length piece.now }
        ensures some { IfOk result (λ n. 1 ≤ n) }
        ensures bound { IfOk result (λ n. n ≤ length piece.now) }
        ensures bytes { IfOk result (λ n. Grows (written self.old) (written self.new) (take n piece.now)) }
        ensures kept { OnErr result (written self.new ≡ written self.old) }
        ensures cause { HasCause (faults self.old) (faults self.new) result }
        ensures more { writes self.old piece.now result self.new };
}
