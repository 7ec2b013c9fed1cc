//! The policies that are handed in with a row.
ghost use Rattle.std.specs.Prelude.{codes};
ghost use Rattle.rail_base.specs.declared.orders.PolicyKind.TheVariants.{Custom};

use rail_base::{Name, PolicyKind, TrainNo, Word};
use rail_io::{Shelf, Sink};
use rail_policy::{
    FcfsPolicy, Offer, Policy, PriorityPolicy, RotatingPolicy, ScriptedPolicy, TimetablePolicy,
    deck_is_fine,
};
use rail_top::{Status, rail};
use std::alloc::{AllocError, Global};

/// The policies of the program, in its order.
pub const BUILT_IN: &str = "priority timetable fcfs rotating";

/// Which policies are handed in.
#[derive(Clone, Copy)]
pub enum Deck<'a> {
    /// Those of these names, in this order. A name that is none of `BUILT_IN` is that of a policy of a kind of its own:
    /// `NAME=NUMBER,NUMBER` answers these numbers in turn, and `NAME` always 0.
    Named(&'a str),
    /// The policy `odd` alone, which answers the last offer.
    Odd,
    /// A policy named `odd` alone, which answers by what it counted.
    Counting,
}

/// What the top call answers with these policies.
pub fn ask<S: Shelf, O: Sink>(
    alloc: Global,
    words: &[Word],
    shelf: &mut S,
    out: &mut O,
    deck: Deck,
) -> Result<Status, AllocError> {
    let mut policies: Vec<Box<dyn Policy>> = Vec::new(alloc);
    match deck {
        Deck::Named(names) => {
            for word in names.split_whitespace() {
                match word {
                    "priority" => policies.push(Box::new(alloc, PriorityPolicy::new())?)?,
                    "timetable" => policies.push(Box::new(alloc, TimetablePolicy::new())?)?,
                    "fcfs" => policies.push(Box::new(alloc, FcfsPolicy::new())?)?,
                    "rotating" => policies.push(Box::new(alloc, RotatingPolicy::new())?)?,
                    _ => policies.push(Box::new(alloc, scripted(alloc, word)?)?)?,
                }
            }
        }
        Deck::Odd => policies.push(Box::new(alloc, Odd::new())?)?,
        Deck::Counting => policies.push(Box::new(alloc, Counting::new())?)?,
    }
    // The prover does not look into the boxes, so the deck is looked at here.
    if !deck_is_fine(&policies) {
        return Err(AllocError);
    }
    Ok(rail(alloc, words, shelf, out, policies))
}

/// The policy of `NAME=NUMBER,NUMBER`, or of `NAME` without answers.
fn scripted(alloc: Global, word: &str) -> Result<ScriptedPolicy, AllocError> {
    let (name, numbers) = word.split_once("=").unwrap_or((word, ""));
    let mut answers = Vec::new(alloc);
    for number in numbers.split_terminator(",") {
        answers.push(number.parse().unwrap_or(0))?;
    }
    match Name::read(name.as_bytes()) {
        Some(name) => Ok(ScriptedPolicy::new(name, answers)),
        None => Err(AllocError),
    }
}

/// A policy of a kind of its own, named `odd`. It answers the last offer.
#[derive(Debug, Drop)]
struct Odd {
    mark: u16,
    answered: usize,
}

impl Odd {
    /// The policy, which was not asked yet.
    fn new() -> Odd {
        Odd {
            mark: 0,
            answered: 0,
        }
    }
}

impl Policy for Odd {
    ghost seat = { λ policy. record { name = codes "odd"; kind = Custom; mark = policy.mark; answered = policy.answered } };

    fn name(&self) -> Name {
        Name::read(b"odd").unwrap()
    }

    fn kind(&self) -> PolicyKind {
        PolicyKind::Custom
    }

    fn mark(&self) -> u16 {
        self.mark
    }

    fn answered(&self) -> usize {
        self.answered
    }

    fn choose(&mut self, offers: &[Offer]) -> usize {
        self.mark = self.mark.wrapping_add(1);
        self.answered = offers.len() - 1;
        self.answered
    }

    fn note(&mut self, _admitted: TrainNo) {}
}

/// A policy of a kind of its own, named `odd`. It answers how often it was asked, and twice for each admission that it
/// noted, counted round the offers. So what it answers tells how often it is asked and what it is told.
#[derive(Debug, Drop)]
struct Counting {
    mark: u16,
    noted: u16,
    answered: usize,
}

impl Counting {
    /// The policy, which was not asked yet.
    fn new() -> Counting {
        Counting {
            mark: 0,
            noted: 0,
            answered: 0,
        }
    }
}

impl Policy for Counting {
    ghost seat = { λ policy. record { name = codes "odd"; kind = Custom; mark = policy.mark; answered = policy.answered } };

    fn name(&self) -> Name {
        Name::read(b"odd").unwrap()
    }

    fn kind(&self) -> PolicyKind {
        PolicyKind::Custom
    }

    fn mark(&self) -> u16 {
        self.mark
    }

    fn answered(&self) -> usize {
        self.answered
    }

    fn choose(&mut self, offers: &[Offer]) -> usize {
        self.mark = self.mark.wrapping_add(1);
        let counted = usize::from(self.mark) + 2 * usize::from(self.noted);
        self.answered = counted % offers.len();
        self.answered
    }

    fn note(&mut self, _admitted: TrainNo) {
        self.noted = self.noted.wrapping_add(1);
    }
}
