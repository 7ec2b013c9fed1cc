//! The trains of a run by what is kept of them.

ghost use Rattle.std.specs.Prelude.{◌≡◌, ◌<◌, ℕ, List, None, length, set, true};
ghost use Rattle.rail_base.specs.declared.limits.TheConstants.{TRAINS};
ghost use Rattle.rail_state.specs.declared.train.TrainState.{TrainState};
ghost use Rattle.rail_state.specs.TrainSearches.{AreSetsOf, HaveNobody};
ghost use Rattle.rail_state.specs.TrainStates.{after_hold_line, is_untried, state_of};

use crate::train::TrainState;
use rail_base::TrainNo;
use rail_sets::TrainSet;

/// For some questions the trains of which the answer is yes.
#[derive(Clone, Copy, Debug)]
pub(crate) struct TrainSets {
    /// Those that wait.
    pub(crate) waiting: TrainSet,
    /// Those that wait without a known cause.
    pub(crate) untried: TrainSet,
    /// Those that lack a hold line.
    pub(crate) lacking: TrainSet,
    /// Those whose known causes an admission may change.
    pub(crate) changeable: TrainSet,
}

impl TrainSets {
    /// No train.
    pub(crate) fn none() -> TrainSets
        ensures { HaveNobody result }
    {
        TrainSets {
            waiting: TrainSet::none(),
            untried: TrainSet::none(),
            lacking: TrainSet::none(),
            changeable: TrainSet::none(),
        }
    }

    /// What is kept of the train now.
    #[inline(always)]
    pub(crate) fn note(&mut self, train: TrainNo, train_state: &TrainState)
        requires { train < TRAINS }
        ensures { (states : List TrainState) → train < length states → AreSetsOf states self.old
            → AreSetsOf (set states train train_state.now) self.new }
    {
        self.waiting.put(train, train_state.waits);
        self.untried.put(train, train_state.is_untried());
        self.lacking.put(train, train_state.lacks_hold_line());
        self.changeable.put(train, train_state.is_changeable());
    }

    /// The untried train was looked at, and this is kept of it now.
    pub(crate) fn note_look(&mut self, train: TrainNo, train_state: &TrainState)
        requires { train < TRAINS }
        ensures { (states : List TrainState) → train < length states → is_untried (state_of states train) ≡ true
            → train_state.now.waits ≡ true → AreSetsOf states self.old → AreSetsOf (set states train train_state.now) self.new }
    {
        if train_state.known.is_some() {
            self.untried.remove(train);
            self.lacking.put(train, train_state.lacks_hold_line());
            self.changeable.put(train, train_state.is_changeable());
        }
    }

    /// The cause of the train is no longer known, and this is kept of it now.
    pub(crate) fn note_forgotten(&mut self, train: TrainNo, train_state: &TrainState)
        requires train { train < TRAINS }
        requires unknown { train_state.now.known ≡ None }
        ensures { (states : List TrainState) → train < length states → train_state.now.waits ≡ (state_of states train).waits
            → AreSetsOf states self.old → AreSetsOf (set states train train_state.now) self.new }
    {
        self.untried.put(train, train_state.waits);
        self.lacking.remove(train);
        self.changeable.remove(train);
    }

    /// The hold line of the train was given.
    pub(crate) fn note_hold(&mut self, train: TrainNo)
        requires { train < TRAINS }
        ensures { (states : List TrainState) → train < length states → AreSetsOf states self.old
            → AreSetsOf (set states train (after_hold_line (state_of states train))) self.new }
    {
        self.lacking.remove(train);
    }
}
