//! A deck of policies: whether it is fine, and its policies by index and name.

ghost use Rattle.std.specs.Prelude.{◌≡◌, ◌+◌, ◌<◌, true, length, map, set, vec_capacity, vec_len, IfOk};
ghost use Rattle.std.specs.List.{list_any, remove};
ghost use Rattle.rail_policy.specs.Choices.{MayChoose};
ghost use Rattle.rail_policy.specs.Seats.{are_marks_small, asked, noted, have_distinct_names, is_fine_deck, is_named, names_of, index_of, seat_at};

use crate::offer::Offer;
use crate::policy::Policy;
use rail_base::limits::POLICIES;
use rail_base::{Name, OutOfMemory, TrainNo};
use std::alloc::Global;

/// Whether the boxes can be handed to a desk: there are 1 to 16, and no two have one name.
pub fn deck_is_fine(deck: &[Box<dyn Policy>]) -> bool
    ensures { result ≡ is_fine_deck (map ⟦<Box<dyn Policy> as Policy>⟧.seat deck.now) }
{
    !deck.is_empty() && deck.len() <= POLICIES && have_distinct_names(deck)
}

/// Reads the mark of each policy, which is a number of 16 bits. It changes nothing: a caller learns by its contract
/// that all marks are such numbers.
pub fn read_marks(deck: &[Box<dyn Policy>])
    ensures { are_marks_small (map ⟦<Box<dyn Policy> as Policy>⟧.seat deck.now) ≡ true }
{
    read_marks_of(deck);
}

/// Reads the mark of each policy of any deck.
fn read_marks_of<P: Policy>(deck: &[P])
    ensures { are_marks_small (map P.seat deck.now) ≡ true }
{
    for policy in deck {
        policy.mark();
    }
}

/// The names of the policies, in order.
pub fn names_of(alloc: Global, deck: &[Box<dyn Policy>]) -> Result<Vec<Name>, OutOfMemory>
    ensures { IfOk result (λ names. names.items ≡ names_of (map ⟦<Box<dyn Policy> as Policy>⟧.seat deck.now)) }
{
    names_in(alloc, deck)
}

/// The names of the policies of any deck, in order.
pub(crate) fn names_in<P: Policy>(alloc: Global, deck: &[P]) -> Result<Vec<Name>, OutOfMemory>
    ensures { IfOk result (λ names. names.items ≡ names_of (map P.seat deck.now)) }
{
    let mut names = Vec::with_capacity(alloc, deck.len())?;
    for policy in deck {
        names.push_reserved(policy.name());
    }
    Ok(names)
}

/// Whether no two policies have one name. There are few policies, so each name is compared with all later ones.
fn have_distinct_names<P: Policy>(deck: &[P]) -> bool
    ensures { result ≡ have_distinct_names (map P.seat deck.now) }
{
    let mut rest = deck;
    while let Some((policy, later)) = rest.split_first() {
        if has_name(later, policy.name()) {
            return false;
        }
        rest = later;
    }
    true
}

/// Whether a policy has the name.
fn has_name<P: Policy>(deck: &[P], name: Name) -> bool
    ensures { result ≡ list_any (is_named name) (map P.seat deck.now) }
{
    deck.iter().any(|policy| is_named(policy, name))
}

/// Whether the policy has the name.
fn is_named<P: Policy>(policy: &P, name: Name) -> bool
    ensures { result ≡ is_named name (P.seat policy.now) }
{
    policy.name() == name
}

/// The index of the policy of this name, where there is one.
pub(crate) fn index_of<P: Policy>(deck: &[P], name: Name) -> Option<usize>
    ensures { result ≡ index_of (map P.seat deck.now) name }
{
    deck.iter().position(|policy| is_named(policy, name))
}

/// The answer of the policy at this index to the offers.
pub(crate) fn ask<P: Policy>(deck: &mut [P], index: usize, offers: &[Offer]) -> usize
    requires index { index < length deck.old }
    requires offers { 0 < length offers.now }
    ensures seats { let seats = map P.seat deck.old in map P.seat deck.new ≡ set seats index (asked (seat_at seats index) result) }
    ensures choice { let seat = seat_at (map P.seat deck.old) index in MayChoose seat.kind seat.mark offers.now result }
{
    deck[index].choose(offers)
}

/// Tells the policy at this index which train was admitted.
pub(crate) fn note_admission<P: Policy>(deck: &mut [P], index: usize, admitted: TrainNo)
    requires { index < length deck.old }
    ensures { let seats = map P.seat deck.old in map P.seat deck.new ≡ set seats index (noted (seat_at seats index) admitted) }
{
    deck[index].note(admitted);
}

/// Drops the policy at this index.
pub(crate) fn drop_at<P: Policy>(deck: &mut Vec<P>, index: usize)
    requires { index < vec_len deck.old }
    ensures seats { map P.seat deck.new.items ≡ remove (map P.seat deck.old.items) index }
    ensures len { vec_len deck.new + 1 ≡ vec_len deck.old }
    ensures room { vec_capacity deck.new ≡ vec_capacity deck.old }
{
    deck.remove(index);
}
