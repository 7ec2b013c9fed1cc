//! An engine that has just begun, and the loop that follows its run to the end.

ghost use Rattle.std.specs.Prelude.{◌≡◌, ◌-◌, ◌<◌, ◌≤◌, ◌*◌, ◌+◌, ◌^◌, [], IfErr, IfOk, IsTrue, OnOk, OnErr, length, true};
ghost use Rattle.rail_base.specs.declared.limits.TheConstants.{COMMANDS};
ghost use Rattle.rail_engine.specs.Starts.{run_input};
ghost use Rattle.rail_laws_end.specs.Forks.{are_marks};
ghost use Rattle.rail_policy.specs.Desks.{run_seats};
ghost use Rattle.rail_rules.specs.Accepted.{is_accepted_input};
ghost use Rattle.rail_rules.specs.Plant.{bound, trains};
ghost use Rattle.rail_forms.specs.BegunRuns.{HasBegun, input_of, seats_of};
ghost use Rattle.rail_forms.specs.NotedRuns.{IsCutRun, IsNotedRun};
ghost use Rattle.rail_forms.specs.Snapshots.{SavesInput, SavesInputInPart};
ghost use Rattle.rail_io.specs.FaultCounts.{Rose};
ghost use Rattle.rail_save.specs.Snapshots.{IsRefusedSnapshot, IsResumed};

use crate::notes::LineNotes;
use rail_base::{Command, Fault, OutOfMemory};
use rail_engine::Engine;
use rail_io::{Failed, Sink};
use rail_plan::Plant;
use rail_policy::{Desk, Seen};
use rail_save::{resume, save};
use std::alloc::Global;

/// The engine of a run before its first line.
///
/// No invariant of a type can speak of what a box of the desk says. So what follows a run asks for `HasBegun`.
pub struct Begun {
    engine: Engine,
}

impl Drop for Begun {
    fn drop(self) {
        let Begun { engine: _engine } = self;
    }
}

impl Begun {
    /// Begins the run of the plant with the commands, where the policy in force of the desk is the first one. All memory
    /// that the run takes is taken here.
    pub fn new(
        alloc: Global,
        plant: Plant,
        commands: Vec<Command>,
        desk: Desk,
    ) -> Result<Begun, OutOfMemory>
        requires accepted { is_accepted_input (run_input plant commands.items (⟦<Desk as Seen>⟧.table desk)) ≡ true }
        requires marks { IsTrue (are_marks (run_seats (⟦<Desk as Seen>⟧.table desk))) }
        ensures input { IfOk result (λ begun. input_of begun ≡ run_input plant commands.items (⟦<Desk as Seen>⟧.table desk)) }
        ensures seats { let table = ⟦<Desk as Seen>⟧.table in
            IfOk result (λ begun. seats_of table begun ≡ run_seats (table desk)) }
        ensures begun { IfOk result (HasBegun ⟦<Desk as Seen>⟧.table) }
    {
        let engine = Engine::begin(alloc, plant, commands, desk)?;
        Ok(Begun { engine })
    }

    /// The plant that is run.
    pub fn plant(&self) -> &Plant
        ensures { result.now ≡ (input_of self.now).plant }
    {
        self.engine.plant()
    }

    /// The commands of the run, in order of time.
    pub fn commands(&self) -> &[Command]
        ensures { result.now ≡ (input_of self.now).commands }
    {
        self.engine.commands()
    }

    /// Writes the snapshot of the run after so many lines, or after its end line where it has fewer. It takes no memory.
    pub fn save<O: Sink>(self, count: u64, out: &mut O) -> Result<(), Failed>
        requires begun { HasBegun ⟦<Desk as Seen>⟧.table self }
        ensures adds { OnOk result (SavesInput count (input_of self) (seats_of ⟦<Desk as Seen>⟧.table self)
            (O.written out.old) (O.written out.new)) }
        ensures failed_adds_prefix { OnErr result (SavesInputInPart count (input_of self) (seats_of ⟦<Desk as Seen>⟧.table self)
            (O.written out.old) (O.written out.new)) }
        ensures failed_rose { OnErr result (Rose (O.faults out.old) (O.faults out.new)) }
        ensures faults_never_fall { O.faults out.old ≤ O.faults out.new }
    {
        let Begun { mut engine } = self;
        save(&mut engine, count, out)
    }

    /// The engine behind the lines of the snapshot; a snapshot that is none of this run is refused.
    pub fn resume(self, alloc: Global, snapshot: &[u8]) -> Result<Engine, Fault>
        requires begun { HasBegun ⟦<Desk as Seen>⟧.table self }
        requires short { length snapshot.now < 2 ^ 32 - 1 }
        ensures input { IfOk result (λ engine. engine.core.input ≡ self.engine.core.input) }
        ensures resumed { let table = ⟦<Desk as Seen>⟧.table in
            IfOk result (λ engine. IsResumed (seats_of table self) snapshot.now engine.core (table engine.desk)) }
        ensures refused { let table = ⟦<Desk as Seen>⟧.table in
            IfErr result (IsRefusedSnapshot (input_of self) (seats_of table self) snapshot.now) }
    {
        let Begun { engine } = self;
        resume(alloc, engine, snapshot)
    }

    /// Notes the lines of the run one by one, until the history has ended or one cannot be noted. It takes no memory. The
    /// engine comes back for its plant.
    pub fn follow_to_end<N: LineNotes>(self, notes: &mut N) -> Result<Engine, N::Fault>
        requires begun { HasBegun ⟦<Desk as Seen>⟧.table self }
        requires none { N.are_noted (input_of self) [] notes.old notes.old }
        ensures noted { OnOk result (IsNotedRun (λ input front. N.are_noted input front notes.old notes.new)
            (input_of self) (seats_of ⟦<Desk as Seen>⟧.table self)) }
        ensures cut { OnErr result (IsCutRun (λ input front. N.is_cut input front notes.old notes.new)
            (input_of self) (seats_of ⟦<Desk as Seen>⟧.table self)) }
        ensures plant { IfOk result (λ engine. engine.core.input.plant ≡ (input_of self).plant) }
    {
        let Begun { mut engine } = self;
        for _ in 0..most_steps(engine.plant(), engine.commands().len() as u64) {
            let Some(entry) = engine.step() else {
                return Ok(engine);
            };
            notes.note_line(engine.plant(), entry, engine.listed())?;
        }
        unreachable!()
    }
}

/// How often an engine of the plant, with so many commands, can be asked for a line at most. A history has
/// as many lines as the bound says, and as many hold lines of each train, at most; and once more the answer
/// is that it has ended.
pub fn most_steps(plant: &Plant, commands: u64) -> u64
    requires { commands ≤ COMMANDS }
    ensures { result ≡ bound plant.now commands * (trains plant.now + 1) + 1 }
{
    plant.event_bound(commands) * (u64::from(plant.moves().trains()) + 1) + 1
}
