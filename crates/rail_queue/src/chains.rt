//! An event put into a sorted chain of events.

ghost use Rattle.std.specs.Prelude.{◌≡◌, ◌+◌, ◌<◌, ◌≤◌, false, length, get_or, [], IsTrue, Some};
ghost use Rattle.rail_queue.specs.Order.{is_sorted};
ghost use Rattle.rail_queue.specs.Ring.{events_in, IsPut};
ghost use Rattle.rail_queue.specs.Walk.{starts_before, IsLast};
ghost use Rattle.rail_slots.specs.Slots.{first_slot};

use crate::event::Event;
use rail_slots::Slots;

/// Puts the event into the chain, behind those that it doesn't go before. It looks at these and at one more.
pub(crate) fn put_in_order(slots: &mut Slots<Event>, chain: usize, event: Event)
    requires chain { chain < length slots.old.chains }
    requires spare { 1 ≤ slots.old.spare }
    requires sorted { IsTrue (is_sorted (events_in (get_or slots.old.chains chain []))) }
    ensures put { IsPut slots.old.chains slots.new.chains chain event }
    ensures spare { slots.new.spare + 1 ≡ slots.old.spare }
    ensures walked { slots.new.walked ≤ slots.old.walked + length (get_or slots.old.chains chain []) }
{
    let Some(first) = slots.first(chain) else {
        slots.put_first(chain, event);
        return;
    };
    if event.goes_before(&slots.item(first)) {
        slots.put_first(chain, event);
        return;
    }
    let last = last_not_after(slots, chain, first, event);
    slots.put_after(last, event);
}

/// The last slot of the chain whose event the new one doesn't go before; it doesn't go before the first one.
fn last_not_after(slots: &mut Slots<Event>, chain: usize, first: usize, event: Event) -> usize
    requires chain { chain < length slots.old.chains }
    requires sorted { IsTrue (is_sorted (events_in (get_or slots.old.chains chain []))) }
    requires first { first_slot (get_or slots.old.chains chain []) ≡ Some first }
    requires not_before { starts_before event (get_or slots.old.chains chain []) ≡ false }
    ensures { IsLast slots.old slots.new chain event result }
{
    let mut at = first;
    while let Some(next) = slots.next(at) {
        if event.goes_before(&slots.item(next)) {
            return at;
        }
        at = next;
    }
    at
}
