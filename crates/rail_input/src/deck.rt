//! The deck of policies.

ghost use Rattle.std.specs.Prelude.{◌≡◌, ◌<◌, length, ok_or, None, Some, IfOk, IfSome, OnErr, OnOk};
ghost use Rattle.rail_base.specs.declared.refusals.Fault.TheVariants.{Refused};
ghost use Rattle.rail_input.specs.Inputs.{force_of, index_in_deck, policy_refusal, unknown_policy};

use rail_base::{Fault, Name, Part, Reason, Refusal};

/// The index in the deck of the policy that is in force first, counted from 0. It takes no memory.
pub(crate) fn force_of(policy: Name, deck: &[Name]) -> Result<usize, Fault>
    ensures index { result ≡ ok_or (index_in_deck policy deck.now) (Refused unknown_policy) }
    ensures force { IfOk result (λ force. force ≡ force_of policy deck.now) }
    ensures in_range { IfOk result (λ force. force < length deck.now) }
    ensures accepted { OnOk result (policy_refusal policy deck.now ≡ None) }
    ensures refused { OnErr result (policy_refusal policy deck.now ≡ Some unknown_policy) }
{
    match index_in_deck(policy, deck) {
        Some(index) => Ok(index),
        None => Err(Fault::Refused(unknown_policy())),
    }
}

/// The index in the deck of the first policy of this name, counted from 0.
pub(crate) fn index_in_deck(policy: Name, deck: &[Name]) -> Option<usize>
    ensures index { result ≡ index_in_deck policy deck.now }
    ensures in_range { IfSome result (λ index. index < length deck.now) }
{
    deck.iter().position(|name| policy == *name)
}

/// The refusal of a scene whose policy is not in the deck.
fn unknown_policy() -> Refusal
    ensures { result ≡ unknown_policy }
{
    Refusal {
        reason: Reason::UnknownPolicy,
        part: Part::Root,
        item: 0,
        step: 4,
    }
}
