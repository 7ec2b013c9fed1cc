//! The account of a train.

ghost use Rattle.std.specs.Prelude.{◌≡◌, ◌<◌, ◌++◌, ◌∷◌, [], IfOk, replicate, vec_capacity, vec_len};
ghost use Rattle.rail_delay.specs.Noting.{after_hold, after_line, after_wait, with_time};
ghost use Rattle.rail_delay.specs.Reports.{no_account};

use rail_base::{Cause, Time, What};
use std::alloc::{AllocError, Global};

/// How a train is held: since when, and why.
#[derive(Clone, Copy)]
pub struct OpenHold {
    pub since: Time,
    pub cause: Cause,
}

/// What is kept of a train's waits. Times and sums are in tenths of a second; a sum stands still at the end of its
/// 64 bits, which none reaches in a history whose times do not fall.
#[derive(Clone, Copy)]
pub struct Account {
    /// Since when it waits for its next move to be admitted.
    pub waits_since: Option<Time>,
    /// How it is held.
    pub holding: Option<OpenHold>,
    /// How long it was held in all.
    pub held: u64,
    /// How long it was held by a stop.
    pub stopped: u64,
    /// How long it was held by a closed section.
    pub closed: u64,
    /// How long it was held by a blocked section.
    pub blocked: u64,
    /// How long it was held for want of a list.
    pub no_list: u64,
    /// When it was out.
    pub out: Option<Time>,
    pub cancelled: bool,
}

/// So many accounts, before any line.
pub fn accounts_of(alloc: Global, trains: usize) -> Result<Vec<Account>, AllocError>
    ensures { IfOk result (λ all. all.items ≡ replicate trains no_account) }
{
    let mut all = Vec::with_capacity(alloc, trains)?;
    for _ in 0..trains {
        push_account(&mut all);
    }
    Ok(all)
}

/// Adds an account, before any line.
fn push_account(all: &mut Vec<Account>)
    requires { vec_len all.old < vec_capacity all.old }
    ensures accounts { all.new.items ≡ all.old.items ++ no_account ∷ [] }
    ensures room { vec_capacity all.new ≡ vec_capacity all.old }
{
    all.push_reserved(Account {
        waits_since: None,
        holding: None,
        held: 0,
        stopped: 0,
        closed: 0,
        blocked: 0,
        no_list: 0,
        out: None,
        cancelled: false,
    });
}

impl Account {
    /// A line of this train.
    pub fn note(&mut self, at: Time, what: &What)
        ensures { self.new ≡ after_line at what.now self.old }
    {
        match what {
            What::Ready { .. } => self.waits_since = Some(at),
            What::Hold { cause, .. } => {
                self.end_hold(at);
                self.holding = Some(OpenHold {
                    since: at,
                    cause: *cause,
                });
            }
            What::Admit { .. } => self.end_wait(at),
            What::Out { .. } => self.out = Some(at),
            What::Told { .. } => {
                self.end_wait(at);
                self.cancelled = true;
            }
            What::End => self.end_wait(at),
            _ => {}
        }
    }

    /// The train no longer waits.
    fn end_wait(&mut self, at: Time)
        ensures { self.new ≡ after_wait at self.old }
    {
        self.end_hold(at);
        if let Some(since) = self.waits_since {
            self.held = self.held.saturating_add(at.0.saturating_sub(since.0));
        }
        self.waits_since = None;
    }

    /// The train is no longer held as it was.
    fn end_hold(&mut self, at: Time)
        ensures { self.new ≡ after_hold at self.old }
    {
        if let Some(hold) = self.holding {
            self.add(hold.cause, at.0.saturating_sub(hold.since.0));
        }
        self.holding = None;
    }

    /// Adds the time to the sum of the kind of cause.
    fn add(&mut self, cause: Cause, time: u64)
        ensures { self.new ≡ with_time cause time self.old }
    {
        match cause {
            Cause::Stopped => self.stopped = self.stopped.saturating_add(time),
            Cause::Closed { .. } => self.closed = self.closed.saturating_add(time),
            Cause::Blocked { .. } => self.blocked = self.blocked.saturating_add(time),
            Cause::NoList => self.no_list = self.no_list.saturating_add(time),
        }
    }
}
