//! A policy that answers from a list, whatever it is offered.

ghost use Rattle.std.specs.Prelude.{◌≡◌, ◌<◌, length};
ghost use Rattle.rail_base.specs.declared.orders.PolicyKind.TheVariants.{Custom};
ghost use Rattle.rail_policy.specs.Scripts.{answer_to_come, answers_of, index_after, index_to_come};
ghost use Rattle.rail_policy.specs.Seats.{asked, fresh_seat};

use crate::offer::Offer;
use crate::policy::Policy;
use rail_base::{Name, PolicyKind, TrainNo};

/// A policy of a kind of its own that answers from a list, whatever it is offered: the entries in turn, and the first one
/// again behind the last; 0 where there is none. An entry may be out of range.
#[derive(Debug, Drop)]
pub struct ScriptedPolicy {
    name: Name,
    answers: Vec<usize>,
    /// The index of the entry that it answers next.
    next: usize,
    mark: u16,
    answered: usize,
}

impl ScriptedPolicy {
    /// The policy of this name with these answers, which was not asked yet.
    pub fn new(name: Name, answers: Vec<usize>) -> ScriptedPolicy
        ensures seat { ⟦<ScriptedPolicy as Policy>⟧.seat result ≡ fresh_seat name Custom }
        ensures answers { answers_of result ≡ answers.items }
        ensures from_the_first { index_to_come result ≡ 0 }
    {
        ScriptedPolicy {
            name,
            answers,
            next: 0,
            mark: 0,
            answered: 0,
        }
    }
}

impl Policy for ScriptedPolicy {
    ghost seat = { λ policy. record { name = policy.name; kind = Custom; mark = policy.mark; answered = policy.answered } };

    fn name(&self) -> Name {
        self.name
    }

    fn kind(&self) -> PolicyKind {
        PolicyKind::Custom
    }

    fn mark(&self) -> u16 {
        self.mark
    }

    fn answered(&self) -> usize {
        self.answered
    }

    /// Answers the next entry.
    fn choose(&mut self, _offers: &[Offer]) -> usize
        requires { 0 < length _offers.now }
        ensures seat { let seat = ⟦<ScriptedPolicy as Policy>⟧.seat in seat self.new ≡ asked (seat self.old) result }
        ensures answer { result ≡ answer_to_come self.old }
        ensures next { index_to_come self.new ≡ index_after (length (answers_of self.old)) (index_to_come self.old) }
        ensures answers { answers_of self.new ≡ answers_of self.old }
    {
        self.mark = self.mark.wrapping_add(1);
        self.answered = self.answers.get(self.next).copied().unwrap_or(0);
        let behind = self.next.saturating_add(1);
        self.next = if behind < self.answers.len() {
            behind
        } else {
            0
        };
        self.answered
    }

    /// Changes nothing.
    fn note(&mut self, _admitted: TrainNo)
        ensures seat { let seat = ⟦<ScriptedPolicy as Policy>⟧.seat in seat self.new ≡ seat self.old }
        ensures unchanged { self.new ≡ self.old }
    {}
}
