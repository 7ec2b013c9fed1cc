//! The trait of shelves, from which named files are read, and why a file is not begun.

ghost use Rattle.std.specs.Prelude.{◌≡◌, ◌≢◌, ℕ, ◌+◌, ◌^◌, ◌<◌, ◌≤◌, Bool, false, List, [], length, take, Option, Some, None, Err, IsTrue, IsSome, IfOk, OnOk, OnErr};
ghost use Rattle.std.specs.Io.KnownBytes.{prepend_known, IsAtEnd};
ghost use Rattle.rail_io.specs.FaultCounts.{Rose};
ghost use Rattle.rail_io.specs.declared.shelf.StartFault.TheVariants as start_fault;

use crate::sink::Failed;
use std::alloc::{AllocError, Global};
use thiserror::Error;

/// What named files are read from, one file at a time.
///
/// A shelf may tell what its files hold, or not. A fault is counted: each answer `Failed` comes
/// with a count that rose in this call.
pub trait Shelf {
    // The bytes of each name, where they are told.
    ghost told: { Self → List ℕ → Option (List ℕ) };

    // The bytes left of the begun file, where they are told.
    ghost left: { Self → Option (List ℕ) };

    // The name of the begun file, where one is begun.
    ghost begun: { Self → Option (List ℕ) };

    // How many bytes were moved since the file was begun.
    ghost moved: { Self → ℕ };

    // Whether a read met the end since the file was begun.
    ghost ended: { Self → Bool };

    // The count of faults.
    ghost faults: { Self → ℕ };

    // The name at which a call failed, where one did since the last file was begun.
    ghost failed: { Self → Option (List ℕ) };

    /// Begins the named file at its first byte.
    ///
    /// `Failed` where it cannot be begun, as where the name is absent: then no file is begun.
    /// `OutOfMemory` leaves the shelf unchanged.
    fn start(&mut self, alloc: Global, name: &str) -> Result<(), StartFault>
        ensures begins { OnOk result (begun self.new ≡ Some name.now) }
        ensures none_moved { OnOk result (moved self.new ≡ 0) }
        ensures no_end_met { OnOk result (ended self.new ≡ false) }
        ensures all_left { OnOk result (left self.new ≡ told self.new name.now) }
        ensures ok_clears_failed { OnOk result (failed self.new ≡ None) }

        ensures failed_begins_none { result ≡ Err start_fault.Failed → begun self.new ≡ None }
        ensures failed_name { result ≡ Err start_fault.Failed → failed self.new ≡ Some name.now }
        ensures failed_rose { result ≡ Err start_fault.Failed →
            Rose (faults self.old) (faults self.new) }
        ensures out_of_memory { result ≡ Err start_fault.OutOfMemory → self.new ≡ self.old }

        ensures told_stays { told self.new ≡ told self.old }
        ensures faults_never_fall { faults self.old ≤ faults self.new };

    /// Moves the next bytes of the begun file to the front of `into`, and says how many: 0 exactly
    /// at the end. On `Failed` none was moved, and what `into` then holds is left open.
    fn read(&mut self, into: &mut [u8]) -> Result<usize, Failed>
        requires begun { IsSome (begun self.old) }
        requires room { 0 < length into.old }

        ensures within { IfOk result (λ n. n ≤ length into.old) }
        ensures moves { IfOk result
            (λ n. left self.old ≡ prepend_known (take n into.new) (left self.new)) }
        ensures counts { IfOk result (λ n. moved self.new ≡ moved self.old + n) }
        ensures count_fits { OnOk result (moved self.new < 2 ^ 64) }
        ensures none_at_end { IfOk result (λ n. n ≡ 0 → IsAtEnd (left self.old)) }
        ensures some_before_end { IfOk result (λ n. 0 < n → left self.old ≢ Some []) }
        ensures end_met { IfOk result (λ n. n ≡ 0 → IsTrue (ended self.new)) }
        ensures end_not_met { IfOk result (λ n. 0 < n → ended self.new ≡ ended self.old) }
        ensures ok_keeps_failed { OnOk result (failed self.new ≡ failed self.old) }

        ensures failed_leaves { OnErr result (left self.new ≡ left self.old) }
        ensures failed_moves_none { OnErr result (moved self.new ≡ moved self.old) }
        ensures failed_meets_no_end { OnErr result (ended self.new ≡ ended self.old) }
        ensures failed_name { OnErr result (failed self.new ≡ begun self.old) }
        ensures failed_rose { OnErr result (Rose (faults self.old) (faults self.new)) }

        ensures begun_stays { begun self.new ≡ begun self.old }
        ensures told_stays { told self.new ≡ told self.old }
        ensures faults_never_fall { faults self.old ≤ faults self.new };
}

/// Why a file was not begun.
#[derive(Clone, Copy, Debug, PartialEq, Eq, Error)]
pub enum StartFault {
    /// The file cannot be begun.
    #[error("the file cannot be begun")]
    Failed,
    /// Memory was not found.
    #[error("out of memory")]
    OutOfMemory,
}

impl From<AllocError> for StartFault {
    ghost from_gives = { λ _ e. e ≡ start_fault.OutOfMemory };

    fn from(_: AllocError) -> StartFault {
        StartFault::OutOfMemory
    }
}
