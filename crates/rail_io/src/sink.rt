//! The trait of sinks, to which bytes are written, and the fault of a read or a write.

ghost use Rattle.std.specs.Prelude.{ℕ, ◌<◌, ◌≤◌, List, [], length, take, Option, IfOk, OnErr};
ghost use Rattle.rail_io.specs.FaultCounts.{Rose};
ghost use Rattle.rail_io.specs.Writes.{Adds};

use thiserror::Error;

/// What bytes are written to, piece by piece.
///
/// A sink may tell what was written, or not, and may stop telling. A fault is counted: each answer
/// `Failed` comes with a count that rose in this call.
pub trait Sink {
    // The bytes written, where they are told.
    ghost written: { Self → Option (List ℕ) };

    // The count of faults.
    ghost faults: { Self → ℕ };

    /// Takes bytes from the front of the piece, and says how many: at least one. On `Failed` none
    /// was taken.
    fn write(&mut self, piece: &[u8]) -> Result<usize, Failed>
        requires { 0 < length piece.now }

        ensures some { IfOk result (λ n. 0 < n) }
        ensures within { IfOk result (λ n. n ≤ length piece.now) }
        ensures adds { IfOk result
            (λ n. Adds (written self.old) (written self.new) (take n piece.now)) }

        ensures failed_adds_none { OnErr result (Adds (written self.old) (written self.new) []) }
        ensures failed_rose { OnErr result (Rose (faults self.old) (faults self.new)) }

        ensures faults_never_fall { faults self.old ≤ faults self.new };
}

/// A read or a write failed.
#[derive(Clone, Copy, Debug, PartialEq, Eq, Error)]
#[error("a read or a write failed")]
pub struct Failed;
