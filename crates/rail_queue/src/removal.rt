//! The events of a class with a number taken out of all chains.

ghost use Rattle.std.specs.Prelude.{◌≡◌, ◌<◌, true, length, get_or, [], Some};
ghost use Rattle.rail_queue.specs.Removal.{AreThinned, IsCleared, IsThinned, first_passes, is_other};
ghost use Rattle.rail_slots.specs.Slots.{first_slot};

use crate::event::{Class, Event};
use rail_slots::Slots;

/// Takes the events of the class with the number out of the chains, which are so many. It looks at each chain
/// and at each held event once.
pub(crate) fn take_out(slots: &mut Slots<Event>, chains: usize, class: Class, number: u16)
    requires { length slots.old.chains ≡ chains }
    ensures { AreThinned (is_other class number) slots.old slots.new chains }
{
    for chain in 0..chains {
        take_out_of(slots, chain, class, number);
    }
}

/// Takes the events of the class with the number out of the chain. It looks at each event of the chain once.
pub(crate) fn take_out_of(slots: &mut Slots<Event>, chain: usize, class: Class, number: u16)
    requires { chain < length slots.old.chains }
    ensures { IsThinned (is_other class number) slots.old slots.new chain }
{
    take_out_first(slots, chain, class, number);
    let Some(first) = slots.first(chain) else {
        return;
    };
    take_out_behind(slots, chain, first, class, number);
}

/// Takes the events of the class with the number out that stand before all others in the chain.
fn take_out_first(slots: &mut Slots<Event>, chain: usize, class: Class, number: u16)
    requires { chain < length slots.old.chains }
    ensures cleared { IsCleared (is_other class number) slots.old slots.new chain }
    ensures first { first_passes (is_other class number) (get_or slots.new.chains chain []) ≡ true }
{
    while let Some(first) = slots.first(chain) {
        if !slots.item(first).is_of(class, number) {
            return;
        }
        slots.take_first(chain);
    }
}

/// Takes the events of the class with the number out of the chain behind its first slot, whose event is another.
fn take_out_behind(slots: &mut Slots<Event>, chain: usize, first: usize, class: Class, number: u16)
    requires chain { chain < length slots.old.chains }
    requires first { first_slot (get_or slots.old.chains chain []) ≡ Some first }
    requires is_other { first_passes (is_other class number) (get_or slots.old.chains chain []) ≡ true }
    ensures { IsThinned (is_other class number) slots.old slots.new chain }
{
    let mut at = first;
    while let Some(next) = slots.next(at) {
        if slots.item(next).is_of(class, number) {
            slots.take_after(at);
        } else {
            at = next;
        }
    }
}
