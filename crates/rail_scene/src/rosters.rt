//! The train kinds and the trains of a scene that is being read, found by their names.
ghost use Rattle.std.specs.Prelude.{◌≡◌, ◌<◌, [], ◌∷◌, ◌++◌, length, IsTrue, None, OnOk, IfErr};
ghost use Rattle.rail_base.specs.FirstRefusals.{first_failing};
ghost use Rattle.rail_track.specs.NetFaults.{Answers};
ghost use Rattle.rail_scene.specs.Scenes.{is_fit_kind, is_fit_train};
ghost use Rattle.rail_scene.specs.Rosters.{AreKinds, AreTrains, kind_tests, train_tests};

use crate::scene::SceneTrain;
use rail_base::limits::{KINDS, TRAINS};
use rail_base::{Name, Reason, Seq, TrainKind};
use rail_track::{Keyed, NetFault, Roll};
use std::alloc::Global;
use std::marker::Model;

impl Keyed<Name> for SceneTrain {
    ghost key_of = { λ train. train.name };

    fn key(&self) -> Name {
        self.name
    }
}

/// The name stands already.
const REPEATED: NetFault = NetFault::Refused {
    reason: Reason::Repeated,
    step: 1,
};

/// Train kinds in order, each fit and of a name of its own, and no more than the limit. Contracts see
/// it as their list.
#[derive(Drop)]
pub(crate) struct Kinds {
    kinds: Roll<Name, TrainKind>,
}

impl Model for Kinds {
    ghost use Rattle.std.specs.Prelude.{List};
    ghost use Rattle.rail_base.specs.declared.plant.TrainKind.{TrainKind};

    ghost Value = { List TrainKind };

    ghost use Rattle.rail_scene.specs.Rosters.{AreKinds};

    ghost view = { λ roster. roster.kinds };

    ghost invariant = { λ roster. AreKinds roster.kinds };
}

impl Kinds {
    /// No kinds. It takes no memory.
    pub(crate) fn new(alloc: Global) -> Kinds
        ensures { result ≡ [] }
    {
        Kinds {
            kinds: Roll::new(alloc),
        }
    }

    /// The number of kinds.
    pub(crate) fn len(&self) -> usize
        ensures { result ≡ length self.now }
    {
        self.kinds.as_slice().len()
    }

    /// Adds a kind last. It is refused as repeated, at step 1, exactly where a kind has the name.
    pub(crate) fn add(&mut self, kind: TrainKind) -> Result<(), NetFault>
        requires fit { IsTrue (is_fit_kind kind) }
        requires few { length self.old < KINDS }
        ensures accepted { OnOk result (first_failing (kind_tests self.old kind) ≡ None) }
        ensures added { OnOk result (self.new ≡ self.old ++ kind ∷ []) }
        ensures refused { IfErr result (Answers (first_failing (kind_tests self.old kind))) }
    {
        if self.kinds.contains(&kind.name) {
            return Err(REPEATED);
        }
        self.kinds.push(kind)?;
        Ok(())
    }

    /// The kinds in order. It takes no memory.
    pub(crate) fn into_seq(self) -> Seq<TrainKind>
        ensures kinds { result ≡ self }
        ensures kept { AreKinds result }
    {
        Seq::from_vec(self.kinds.into_vec())
    }
}

/// Trains in order, each fit and of a name of its own, and no more than the limit. Contracts see it as
/// their list.
#[derive(Drop)]
pub(crate) struct Trains {
    trains: Roll<Name, SceneTrain>,
}

impl Model for Trains {
    ghost use Rattle.std.specs.Prelude.{List};
    ghost use Rattle.rail_scene.specs.declared.scene.SceneTrain.{SceneTrain};

    ghost Value = { List SceneTrain };

    ghost use Rattle.rail_scene.specs.Rosters.{AreTrains};

    ghost view = { λ roster. roster.trains };

    ghost invariant = { λ roster. AreTrains roster.trains };
}

impl Trains {
    /// No trains. It takes no memory.
    pub(crate) fn new(alloc: Global) -> Trains
        ensures { result ≡ [] }
    {
        Trains {
            trains: Roll::new(alloc),
        }
    }

    /// The number of trains.
    pub(crate) fn len(&self) -> usize
        ensures { result ≡ length self.now }
    {
        self.trains.as_slice().len()
    }

    /// Adds a train last. It is refused as repeated, at step 1, exactly where a train has the name.
    pub(crate) fn add(&mut self, train: SceneTrain) -> Result<(), NetFault>
        requires fit { IsTrue (is_fit_train train) }
        requires few { length self.old < TRAINS }
        ensures accepted { OnOk result (first_failing (train_tests self.old train) ≡ None) }
        ensures added { OnOk result (self.new ≡ self.old ++ train ∷ []) }
        ensures refused { IfErr result (Answers (first_failing (train_tests self.old train))) }
    {
        if self.trains.contains(&train.name) {
            return Err(REPEATED);
        }
        self.trains.push(train)?;
        Ok(())
    }

    /// The trains in order. It takes no memory.
    pub(crate) fn into_seq(self) -> Seq<SceneTrain>
        ensures trains { result ≡ self }
        ensures kept { AreTrains result }
    {
        Seq::from_vec(self.trains.into_vec())
    }
}
