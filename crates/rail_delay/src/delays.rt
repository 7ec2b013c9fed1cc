//! What is kept of the lines of a history for its report.

ghost use Rattle.std.specs.Prelude.{◌≡◌, ◌∷◌, ◌-◌, ◌<◌, ◌^◌, [], length, get_or, map, set, IfOk, IsTrue, List, ℕ, None, replicate};
ghost use Rattle.rail_base.specs.declared.orders.Command.{Command as OneCommand};
ghost use Rattle.rail_base.specs.declared.history.What.TheVariants.{End as EndLine};
ghost use Rattle.rail_rules.specs.Fronts.{Front, Line};
ghost use Rattle.rail_rules.specs.Plant.{trains};
ghost use Rattle.rail_delay.specs.Accounts.{AreNoted, cancelled_train};
ghost use Rattle.rail_delay.specs.Noting.{AreAccountsAfter, AreVisitsAfter, account_of, after_line, train_of};
ghost use Rattle.rail_delay.specs.Reports.{no_account};
ghost use Rattle.rail_delay.specs.VisitRows.{no_visits};
ghost use Rattle.rail_delay.specs.Waits.{is_in_order};

use crate::account::{Account, accounts_of};
use crate::visits::{Visit, note_visit, rooms_of};
use rail_base::{Command, Entry, Order, OutOfMemory, Time, TrainNo, What};
use rail_plan::Plant;
use std::alloc::{AllocError, Global};
use std::marker::Model;

/// What the lines of a history say of delays, noted one by one.
pub struct Delays {
    accounts: Vec<Account>,
    /// For each train the visits of its moves.
    visits: Vec<Vec<Visit>>,
    /// For each command the train that it cancels.
    cancels: Vec<Option<TrainNo>>,
}

impl Drop for Delays {
    fn drop(self) {
        let Delays {
            accounts: _accounts,
            visits: _visits,
            cancels: _cancels,
        } = self;
    }
}

impl Model for Delays {
    ghost use Rattle.rail_delay.specs.Accounts.{Kept};
    ghost use Rattle.rail_delay.specs.VisitRows.{rows_of};

    ghost Value = { Kept };

    ghost view = { λ delays. record {
      accounts = delays.accounts.items;
      visits = rows_of delays.visits.items;
      cancels = delays.cancels.items;
    } };
}

impl Delays {
    /// No line of a history of this plant and these commands is noted yet.
    pub fn new(alloc: Global, plant: &Plant, commands: &[Command]) -> Result<Delays, OutOfMemory>
        ensures noted { IfOk result (AreNoted plant.now commands.now []) }
        ensures made { IfOk result (λ delays. length delays.accounts ≡ trains plant.now) }
    {
        let visits = rooms_of(alloc, plant)?;
        let cancels = cancels_of(alloc, commands)?;
        let accounts = accounts_of(alloc, usize::from(plant.moves().trains()))?;
        Ok(Delays {
            accounts,
            visits,
            cancels,
        })
    }

    /// Notes the next line of the history, of which this is the entry. The lines are noted from the first on, each
    /// once; their times do not fall. It takes no memory.
    pub fn note(&mut self, plant: &Plant, entry: Entry)
        ensures noted { (commands : List OneCommand) (front : Front) (line : Line) → line.entry ≡ entry
            → IsTrue (is_in_order (line ∷ front)) → AreNoted plant.now commands front self.old
            → AreNoted plant.now commands (line ∷ front) self.new }
        ensures made { length self.new.accounts ≡ length self.old.accounts }
    {
        note_account(&mut self.accounts, &self.cancels, entry.at, &entry.what);
        note_visit(&mut self.visits, plant, &entry);
    }

    /// The accounts of the trains.
    pub(crate) fn accounts(&self) -> &[Account]
        ensures { result.now ≡ self.now.accounts }
    {
        &self.accounts
    }

    /// The visits of the train's moves; none where the plant does not have it.
    pub(crate) fn visits(&self, train: TrainNo) -> &[Visit]
        ensures { result.now ≡ get_or self.now.visits train [] }
    {
        match self.visits.get(usize::from(train.0)) {
            Some(row) => row,
            None => &[],
        }
    }
}

/// For each command the train that it cancels.
fn cancels_of(alloc: Global, commands: &[Command]) -> Result<Vec<Option<TrainNo>>, AllocError>
    ensures { IfOk result (λ cancels. cancels.items ≡ map (λ command. cancelled_train command.what) commands.now) }
{
    commands
        .iter()
        .map(|command| cancelled_train(&command.what))
        .collect(alloc)
}

/// The train that the order cancels.
fn cancelled_train(order: &Order) -> Option<TrainNo>
    ensures { result ≡ cancelled_train order.now }
{
    match order {
        Order::Cancel(train) => Some(*train),
        _ => None,
    }
}

/// Notes the line in the account of its train, or the end line in each account.
fn note_account(all: &mut [Account], cancels: &[Option<TrainNo>], at: Time, what: &What)
    ensures after { AreAccountsAfter cancels.now at what.now all.old all.new }
    ensures fits { at < 2 ^ 64 }
{
    match what {
        What::End => note_end(all, at),
        _ => {
            if let Some(train) = train_of(cancels, what) {
                note_one(all, train, at, what);
            }
        }
    }
}

/// Notes the line in the account of this train, where it is there.
fn note_one(all: &mut [Account], train: TrainNo, at: Time, what: &What)
    ensures { all.new ≡ set all.old train (after_line at what.now (account_of all.old train)) }
{
    let index = usize::from(train.0);
    if index < all.len() {
        all[index].note(at, what);
    }
}

/// Notes the end line in each account.
fn note_end(all: &mut [Account], at: Time)
    ensures trains { length all.new ≡ length all.old }
    ensures each { (t : ℕ) → t < length all.old → account_of all.new t ≡ after_line at EndLine (account_of all.old t) }
{
    for account in all.iter_mut() {
        account.note(at, &What::End);
    }
}

/// The train that the line is of, where its account changes by it: a told line is of the train that it cancels.
fn train_of(cancels: &[Option<TrainNo>], what: &What) -> Option<TrainNo>
    ensures { result ≡ train_of cancels.now what.now }
{
    match what {
        What::Ready { train, .. } => Some(*train),
        What::Hold { train, .. } => Some(*train),
        What::Admit { train, .. } => Some(*train),
        What::Out { train } => Some(*train),
        What::Told { command } => {
            let number = usize::from(*command).saturating_sub(1);
            cancels.get(number).copied().flatten()
        }
        _ => None,
    }
}
