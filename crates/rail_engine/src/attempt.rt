//! Whether a train that was chosen goes.

ghost use Rattle.std.specs.Prelude.{◌≡◌, ◌<◌, false, IfSome, IsNone, length};
ghost use Rattle.rail_engine.specs.Rounds.{HasTriedTrain};
ghost use Rattle.rail_ledger.specs.Ledgers.{AreUnbarred, ContinuesRun, GivesEntry, IsAdmissionOf, IsDeciding, IsSomewhere};
ghost use Rattle.rail_ledger.specs.declared.ledger.Listed.TheVariants as which;
ghost use Rattle.rail_state.specs.TrainStates.{state_of};

use rail_base::{Entry, TrainNo};
use rail_ledger::Ledger;

/// The admission of the next move of a train that waits, where it could go. Else its cause is known.
pub(crate) fn attempt(ledger: &mut Ledger, train: TrainNo) -> Option<Entry>
    requires running { IsSomewhere ledger.old }
    requires going { ledger.old.state.has_ended ≡ false }
    requires unlisted { ledger.old.listed ≡ which.Nothing }
    requires deciding { IsDeciding ledger.old }
    requires unbarred { AreUnbarred ledger.old }
    requires train { train < length ledger.old.state.trains }
    ensures input { ledger.new.input ≡ ledger.old.input }
    ensures line { IfSome result (GivesEntry ledger.old ledger.new) }
    ensures entry { IfSome result (IsAdmissionOf train (state_of ledger.old.state.trains train).place) }
    ensures run { IfSome result (ContinuesRun ledger.old ledger.new train) }
    ensures none { IsNone result → HasTriedTrain ledger.old ledger.new train }
{
    if !ledger.state.trains.get(train).is_untried() {
        return None;
    }
    ledger.admit(train)
}
