//! The engine, as the layers above use it.

ghost use Rattle.std.specs.Prelude.{◌≡◌, ℕ, [], ◌∷◌, List, true, false, IsNone, IsTrue, IfOk, IfSome};
ghost use Rattle.rail_base.specs.declared.history.Note.{Note};
ghost use Rattle.rail_base.specs.declared.history.What.TheVariants.{Admit};
ghost use Rattle.rail_engine.specs.PolicyTurns.{TellsDesk, WasAsked};
ghost use Rattle.rail_engine.specs.Desks.{after_orders};
ghost use Rattle.rail_engine.specs.Engines.{StandsFor};
ghost use Rattle.rail_engine.specs.FollowedLines.{IsAskedAlone, IsNotedAlone};
ghost use Rattle.rail_engine.specs.Starts.{run_input};
ghost use Rattle.rail_laws_end.specs.Forks.{are_marks};
ghost use Rattle.rail_ledger.specs.Ledgers.{line_in, line_taken, list_of};
ghost use Rattle.rail_ledger.specs.Inputs.{input_in};
ghost use Rattle.rail_policy.specs.Desks.{run_seats};
ghost use Rattle.rail_rules.specs.Accepted.{is_accepted_input};
ghost use Rattle.rail_rules.specs.Fronts.{Front, has_ended, is_admission, kept};
ghost use Rattle.rail_rules.specs.Orders.{orders_of};
ghost use Rattle.rail_rules.specs.RunHistories.{Seat, is_run};

use crate::followed_lines::follow_line;
use crate::round::{Round, next_line};
use rail_base::limits::TRAINS;
use rail_base::{Command, Entry, OutOfMemory, TrainNo};
use rail_ledger::{Ledger, RunInput};
use rail_plan::Plant;
use rail_policy::{Desk, Seen};
use std::alloc::Global;
use std::marker::Model;

/// The engine of a run: of the trains that may move the policy in force says which goes first. It stands for a
/// front, which is the lines that it has given so far.
pub struct Engine {
    core: Core,
    desk: Desk,
}

// Written out, so that it is proved here and not in each crate that lets an engine go.
impl Drop for Engine {
    fn drop(self) {
        let Engine {
            core: _core,
            desk: _desk,
        } = self;
    }
}

/// What an engine keeps beside its desk. Contracts see the ledger.
struct Core {
    ledger: Ledger,
    round: Round,
}

impl Drop for Core {
    fn drop(self) {
        let Core {
            ledger: _ledger,
            round: _round,
        } = self;
    }
}

impl Model for Core {
    ghost use Rattle.rail_ledger.specs.declared.ledger.Ledger.{Ledger};
    ghost use Rattle.rail_engine.specs.Engines.{IsRunning};

    ghost Value = { Ledger };

    ghost view = { λ core. core.ledger };

    ghost invariant = { λ core. IsRunning core.ledger core.round };
}

impl Core {
    /// The next line; `None` after the end line.
    #[inline(always)]
    fn step(&mut self, desk: &mut Desk) -> Option<Entry>
        ensures input { self.new.input ≡ self.old.input }
        ensures ended { IsNone result → (seats : List Seat) (front : Front)
            → StandsFor seats front self.old (⟦<Desk as Seen>⟧.table desk.old) → has_ended front ≡ true }
        ensures unchanged { IsNone result → self.new ≡ self.old }
        ensures desk { let table = ⟦<Desk as Seen>⟧.table in IsNone result → table desk.new ≡ table desk.old }
        ensures going { IfSome result (λ entry. (seats : List Seat) (front : Front)
            → StandsFor seats front self.old (⟦<Desk as Seen>⟧.table desk.old) → has_ended front ≡ false) }
        ensures line { let table = ⟦<Desk as Seen>⟧.table in IfSome result (λ entry. (seats : List Seat) (front : Front)
            → StandsFor seats front self.old (table desk.old)
            → StandsFor seats (line_in self.new entry ∷ front) self.new (table desk.new)) }
        ensures asked { let table = ⟦<Desk as Seen>⟧.table in IfSome result (λ entry. (seats : List Seat) (front : Front)
            → StandsFor seats front self.old (table desk.old) → (t m : ℕ) (note : Note) → entry.what ≡ Admit t m note
            → WasAsked (input_in self.old.input) front t (table desk.old) (table desk.new)) }
        ensures told { let table = ⟦<Desk as Seen>⟧.table in IfSome result (λ entry. (seats : List Seat) (front : Front)
            → StandsFor seats front self.old (table desk.old) → is_admission entry.what ≡ false
            → TellsDesk (input_in self.old.input) front entry (table desk.old) (table desk.new)) }
    {
        next_line(&mut self.ledger, &mut self.round, desk)
    }

    /// Takes a line of a run that was made before: true exactly where the lines so far with it are those of a run.
    fn follow(&mut self, desk: &mut Desk, entry: Entry, list: &[TrainNo]) -> bool
        ensures input { self.new.input ≡ self.old.input }
        ensures taken { let table = ⟦<Desk as Seen>⟧.table in IsTrue result → (seats : List Seat) (front : Front)
            → StandsFor seats front self.old (table desk.old)
            → StandsFor seats (line_taken entry list.now ∷ front) self.new (table desk.new) }
        ensures refused { let table = ⟦<Desk as Seen>⟧.table in result ≡ false → (seats : List Seat) (front : Front)
            → IsTrue (are_marks seats) → StandsFor seats front self.old (table desk.old)
            → is_run (input_in self.old.input) seats (line_taken entry list.now ∷ front) ≡ false }
        ensures unchanged { let table = ⟦<Desk as Seen>⟧.table in result ≡ false → (seats : List Seat) (front : Front)
            → StandsFor seats front self.old (table desk.old) → StandsFor seats front self.new (table desk.new) }
        ensures asked { let table = ⟦<Desk as Seen>⟧.table in result ≡ false → IsAskedAlone (table desk.old) (table desk.new) }
        ensures noted { let table = ⟦<Desk as Seen>⟧.table in IsTrue result → (t m : ℕ) (note : Note) → entry.what ≡ Admit t m note
            → IsNotedAlone (table desk.old) (table desk.new) t }
        ensures orders { let table = ⟦<Desk as Seen>⟧.table in IsTrue result → is_admission entry.what ≡ false
            → table desk.new ≡ after_orders (orders_of self.old.input.commands.items entry.what) (table desk.old) }
    {
        follow_line(&mut self.ledger, &mut self.round, desk, entry, list)
    }
}

impl Engine {
    /// The engine before the first line, where the policy in force of the desk is the first one. The commands are
    /// for this plant, in order of time and within the limits. All memory that a run takes is taken here.
    pub fn begin(
        alloc: Global,
        plant: Plant,
        commands: Vec<Command>,
        desk: Desk,
    ) -> Result<Engine, OutOfMemory>
        requires accepted { is_accepted_input (run_input plant commands.items (⟦<Desk as Seen>⟧.table desk)) ≡ true }
        ensures input { IfOk result (λ engine. input_in engine.core.input ≡ run_input plant commands.items (⟦<Desk as Seen>⟧.table desk)) }
        ensures desk { let table = ⟦<Desk as Seen>⟧.table in IfOk result (λ engine. table engine.desk ≡ table desk) }
        ensures begun { let table = ⟦<Desk as Seen>⟧.table in
            IfOk result (λ engine. StandsFor (run_seats (table desk)) [] engine.core (table engine.desk)) }
    {
        let input = input_of(alloc, plant, commands, &desk)?;
        let offers = Vec::with_capacity(alloc, TRAINS)?;
        let ledger = Ledger::begin(alloc, input)?;
        let round = Round {
            offers,
            is_over: false,
        };
        Ok(Engine {
            core: Core { ledger, round },
            desk,
        })
    }

    /// The next line of the history; `None` after the end line, and then nothing has changed. It takes no
    /// memory. Before an admission the policy in force was asked, whatever its kind.
    // In line where a run is followed: so a line is not handed on through memory.
    #[inline(always)]
    pub fn step(&mut self) -> Option<Entry>
        ensures input { self.new.core.input ≡ self.old.core.input }
        ensures ended { IsNone result → (seats : List Seat) (front : Front)
            → StandsFor seats front self.old.core (⟦<Desk as Seen>⟧.table self.old.desk) → has_ended front ≡ true }
        ensures unchanged { IsNone result → self.new.core ≡ self.old.core }
        ensures desk { let table = ⟦<Desk as Seen>⟧.table in IsNone result → table self.new.desk ≡ table self.old.desk }
        ensures going { IfSome result (λ entry. (seats : List Seat) (front : Front)
            → StandsFor seats front self.old.core (⟦<Desk as Seen>⟧.table self.old.desk) → has_ended front ≡ false) }
        ensures line { let table = ⟦<Desk as Seen>⟧.table in IfSome result (λ entry. (seats : List Seat) (front : Front)
            → StandsFor seats front self.old.core (table self.old.desk)
            → StandsFor seats (line_in self.new.core entry ∷ front) self.new.core (table self.new.desk)) }
        ensures asked { let table = ⟦<Desk as Seen>⟧.table in IfSome result (λ entry. (seats : List Seat) (front : Front)
            → StandsFor seats front self.old.core (table self.old.desk) → (t m : ℕ) (note : Note) → entry.what ≡ Admit t m note
            → WasAsked (input_in self.old.core.input) front t (table self.old.desk) (table self.new.desk)) }
        ensures told { let table = ⟦<Desk as Seen>⟧.table in IfSome result (λ entry. (seats : List Seat) (front : Front)
            → StandsFor seats front self.old.core (table self.old.desk) → is_admission entry.what ≡ false
            → TellsDesk (input_in self.old.core.input) front entry (table self.old.desk) (table self.new.desk)) }
    {
        self.core.step(&mut self.desk)
    }

    /// Takes a line of a run that was made before, with the list of a fresh admission or the trains that an end line
    /// names: true exactly where the lines so far with it are those of a run. Where it is false the engine stands for the
    /// lines so far. The policy in force is not asked where it is a custom one. It takes no memory.
    pub fn follow(&mut self, entry: Entry, list: &[TrainNo]) -> bool
        ensures input { self.new.core.input ≡ self.old.core.input }
        ensures taken { let table = ⟦<Desk as Seen>⟧.table in IsTrue result → (seats : List Seat) (front : Front)
            → StandsFor seats front self.old.core (table self.old.desk)
            → StandsFor seats (line_taken entry list.now ∷ front) self.new.core (table self.new.desk) }
        ensures refused { let table = ⟦<Desk as Seen>⟧.table in result ≡ false → (seats : List Seat) (front : Front)
            → IsTrue (are_marks seats) → StandsFor seats front self.old.core (table self.old.desk)
            → is_run (input_in self.old.core.input) seats (line_taken entry list.now ∷ front) ≡ false }
        ensures unchanged { let table = ⟦<Desk as Seen>⟧.table in result ≡ false → (seats : List Seat) (front : Front)
            → StandsFor seats front self.old.core (table self.old.desk) → StandsFor seats front self.new.core (table self.new.desk) }
        ensures asked { let table = ⟦<Desk as Seen>⟧.table in result ≡ false → IsAskedAlone (table self.old.desk) (table self.new.desk) }
        ensures noted { let table = ⟦<Desk as Seen>⟧.table in IsTrue result → (t m : ℕ) (note : Note) → entry.what ≡ Admit t m note
            → IsNotedAlone (table self.old.desk) (table self.new.desk) t }
        ensures orders { let table = ⟦<Desk as Seen>⟧.table in IsTrue result → is_admission entry.what ≡ false
            → table self.new.desk ≡ after_orders (orders_of self.old.core.input.commands.items entry.what) (table self.old.desk) }
    {
        self.core.follow(&mut self.desk, entry, list)
    }

    /// The kept list after the last line.
    pub fn kept(&self) -> &[TrainNo]
        ensures { let table = ⟦<Desk as Seen>⟧.table in (seats : List Seat) (front : Front)
            → StandsFor seats front self.now.core (table self.now.desk) → result.now ≡ kept self.now.core.input.plant front }
    {
        self.core.ledger.kept.as_slice(&self.core.ledger.reader)
    }

    /// The list that belongs to the last line: that of a fresh admission, or the trains that the end line
    /// names; else none.
    pub fn listed(&self) -> &[TrainNo]
        ensures { let table = ⟦<Desk as Seen>⟧.table in (seats : List Seat) (front : Front)
            → StandsFor seats front self.now.core (table self.now.desk) → result.now ≡ list_of front }
    {
        self.core.ledger.last_list()
    }

    /// The plant that is run.
    pub fn plant(&self) -> &Plant
        ensures { result.now ≡ self.now.core.input.plant }
    {
        &self.core.ledger.input.plant
    }

    /// The commands of the run, in order of time.
    pub fn commands(&self) -> &[Command]
        ensures { result.now ≡ self.now.core.input.commands.items }
    {
        &self.core.ledger.input.commands
    }
}

/// What a run is of: the plant with its calls, the commands, and the names of the policies of the desk with the
/// place of the one in force.
fn input_of(
    alloc: Global,
    plant: Plant,
    commands: Vec<Command>,
    desk: &Desk,
) -> Result<RunInput, OutOfMemory>
    requires { is_accepted_input (run_input plant commands.items (⟦<Desk as Seen>⟧.table desk.now)) ≡ true }
    ensures { IfOk result (λ input. input_in input ≡ run_input plant commands.items (⟦<Desk as Seen>⟧.table desk.now)) }
{
    let deck = desk.names(alloc)?;
    let force = desk.force();
    Ok(RunInput {
        plant,
        commands,
        deck,
        force,
    })
}
