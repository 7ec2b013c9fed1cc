//! The files of a scenario: a scene, with a timetable and commands where it has them. They are read one after another, and
//! what they spell is begun as a run.

ghost use Rattle.std.proofs.Props.{props};
ghost use Rattle.std.specs.Prelude.{◌≡◌, ◌<◌, ◌≤◌, IfErr, IfOk, IfSome, IsTrue, None, OnOk, length, map, true, false};
ghost use Rattle.rail_base.specs.Limits.{is_from_one, most, Policies};
ghost use Rattle.rail_base.specs.Refusals.{AnswersFirst};
ghost use Rattle.rail_base.specs.declared.limits.TheConstants.{HISTORY_BYTES};
ghost use Rattle.rail_command_line.specs.Forms.{scenario_files, scenario_in};
ghost use Rattle.rail_input.specs.Inputs.{refuses_file};
ghost use Rattle.rail_policy.specs.Seats.{handed_in, is_fine_deck, names_of};
ghost use Rattle.rail_rules.specs.Accepted.{are_distinct_names, is_accepted_input};
ghost use Rattle.rail_forms.specs.BegunRuns.{HasBegun, input_of, seats_of};
ghost use Rattle.rail_forms.specs.Files.{IsRead, content_of, last_file};

use crate::beginning::Begun;
use crate::files::{read_file, read_if_named};
use crate::status::Status;
use rail_base::{Fault, Name};
use rail_command_line::{FileRole, Scenario};
use rail_input::{ReadInput, read_input};
use rail_io::Shelf;
use rail_policy::{Desk, Policy, Seen, names_of, read_marks};
use std::alloc::Global;

/// The bytes of a scenario's files, none of which has more than a file may have.
pub(crate) struct ScenarioFiles {
    scene: Vec<u8>,
    timetable: Option<Vec<u8>>,
    commands: Option<Vec<u8>>,
    ghost short_timetable: { IfSome (content_of timetable) (λ bytes. length bytes ≤ HISTORY_BYTES) } by { Prim.hlevel props },
    ghost short_commands: { IfSome (content_of commands) (λ bytes. length bytes ≤ HISTORY_BYTES) } by { Prim.hlevel props },
}

impl Drop for ScenarioFiles {
    fn drop(self) {
        let ScenarioFiles {
            scene: _scene,
            timetable: _timetable,
            commands: _commands,
        } = self;
    }
}

impl ScenarioFiles {
    ghost use Rattle.rail_forms.specs.Scenarios.{IsHeld, IsUnread, refusal_in, spelled_in};

    /// Reads the files of the scenario, in their order. It ends as `read_file` does at the first that is not read.
    pub fn read<S: Shelf>(
        alloc: Global,
        scenario: &Scenario,
        shelf: &mut S,
    ) -> Result<ScenarioFiles, Status>
        ensures held { IfOk result (IsHeld (S.told shelf.old) (scenario_in scenario.now)) }
        ensures read { OnOk result (IfSome (last_file (scenario_files (scenario_in scenario.now))) (λ file. IsRead S.Shelf file shelf.new)) }
        ensures unread { IfErr result (IsUnread S.Shelf (scenario_in scenario.now) shelf.old shelf.new) }
        ensures told_stays { S.told shelf.new ≡ S.told shelf.old }
        ensures faults_never_fall { S.faults shelf.old ≤ S.faults shelf.new }
    {
        let scene = read_file(alloc, shelf, scenario.scene, FileRole::Scene)?;
        let timetable = read_if_named(alloc, shelf, scenario.timetable, FileRole::Timetable)?;
        let commands = read_if_named(alloc, shelf, scenario.commands, FileRole::Commands)?;
        Ok(ScenarioFiles {
            scene,
            timetable,
            commands,
        })
    }

    /// What the files spell, for a deck of policies of these names.
    pub fn read_input(&self, alloc: Global, deck: &[Name]) -> Result<ReadInput, Fault>
        ensures accepted { OnOk result (refusal_in self.now deck.now ≡ None) }
        ensures plant { IfOk result (λ read. read.plant ≡ (spelled_in self.now deck.now).plant) }
        ensures commands { IfOk result (λ read. read.commands.items ≡ (spelled_in self.now deck.now).commands) }
        ensures force { IfOk result (λ read. read.force ≡ (spelled_in self.now deck.now).force) }
        ensures in_range { IfOk result (λ read. read.force < length deck.now) }
        ensures fine { is_from_one (most Policies) (length deck.now) ≡ true → are_distinct_names deck.now ≡ true
            → OnOk result (is_accepted_input (spelled_in self.now deck.now) ≡ true) }
        ensures refused { IfErr result (AnswersFirst (refusal_in self.now deck.now)) }
        ensures of_bytes { IfErr result (λ fault. refuses_file fault ≡ false) }
    {
        read_input(
            alloc,
            &self.scene,
            self.timetable.as_deref(),
            self.commands.as_deref(),
            deck,
        )
    }

    /// Begins the run of what the files spell, where the first policy in force is the one that the scene names. All memory
    /// that the run takes is taken here.
    pub fn begin(&self, alloc: Global, deck: Vec<Box<dyn Policy>>) -> Result<Begun, Fault>
        requires fine { IsTrue (is_fine_deck (map ⟦<Box<dyn Policy> as Policy>⟧.seat deck.items)) }
        ensures accepted { OnOk result (refusal_in self.now (names_of (map ⟦<Box<dyn Policy> as Policy>⟧.seat deck.items)) ≡ None) }
        ensures begun { IfOk result (HasBegun ⟦<Desk as Seen>⟧.table) }
        ensures input { IfOk result (λ begun. input_of begun
            ≡ spelled_in self.now (names_of (map ⟦<Box<dyn Policy> as Policy>⟧.seat deck.items))) }
        ensures seats { IfOk result (λ begun. seats_of ⟦<Desk as Seen>⟧.table begun
            ≡ handed_in (map ⟦<Box<dyn Policy> as Policy>⟧.seat deck.items)) }
        ensures refused { IfErr result (AnswersFirst (refusal_in self.now (names_of (map ⟦<Box<dyn Policy> as Policy>⟧.seat deck.items)))) }
        ensures of_bytes { IfErr result (λ fault. refuses_file fault ≡ false) }
    {
        let names = names_of(alloc, &deck)?;
        read_marks(&deck);
        let ReadInput {
            plant,
            commands,
            force,
        } = self.read_input(alloc, &names)?;
        let desk = Desk::new(deck, force);
        let begun = Begun::new(alloc, plant, commands, desk)?;
        Ok(begun)
    }
}
