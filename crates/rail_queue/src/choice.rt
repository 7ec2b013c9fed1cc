//! The chain whose first event comes first of all.

ghost use Rattle.std.specs.Prelude.{◌≡◌, ℕ, List, ◌<◌, [], get_or, length};
ghost use Rattle.rail_queue.specs.Choice.{IsChosen, IsFirstChain};
ghost use Rattle.rail_queue.specs.Marks.{AreMarked};
ghost use Rattle.rail_queue.specs.Ring.{chain_at, IsPut, IsRing, ring};
ghost use Rattle.rail_queue.specs.declared.event.Event.{Event};
ghost use Rattle.rail_slots.specs.Slots.{first_item};

use crate::event::Event;
use crate::marks::Marks;
use crate::queue::RING;
use rail_slots::Slots;

/// The first event of the chain, if it has one.
pub(crate) fn first_event(slots: &Slots<Event>, chain: usize) -> Option<Event>
    requires { chain < length slots.now.chains }
    ensures { result ≡ first_item (get_or slots.now.chains chain []) }
{
    let slot = slots.first(chain)?;
    Some(slots.item(slot))
}

/// The chain whose first event comes first of all; of two equal ones that of the far chain, which was pushed
/// before the other.
///
/// It looks at the first events of two chains, however far time jumps: the nearest one of the ring, found by the
/// marks, and the far one.
#[inline(always)]
pub(crate) fn earliest(slots: &Slots<Event>, marks: &Marks, base: u64) -> Option<usize>
    requires ringed { IsRing ring base slots.now.chains }
    requires marked { AreMarked marks.now.words slots.now.chains 1024 }
    ensures { IsFirstChain slots.now.chains result }
{
    let Some(near) = marks.first_from((base % RING as u64) as usize) else {
        if slots.first(RING).is_some() {
            return Some(RING);
        }
        return None;
    };
    let Some(far_event) = first_event(slots, RING) else {
        return Some(near);
    };
    let Some(near_event) = first_event(slots, near) else {
        unreachable!()
    };
    let sooner = near_event.goes_before(&far_event);
    let chain = if sooner { near } else { RING };
    Some(chain)
}

/// The chain that comes first once the event is put into its own chain; `first` is the one that comes first before,
/// if there is an event. It looks at the first event of that one alone.
pub(crate) fn first_with(
    slots: &Slots<Event>,
    first: Option<usize>,
    chain: usize,
    event: &Event,
) -> usize
    requires { IsFirstChain slots.now.chains first }
    ensures { (base : ℕ) (new : List (List (ℕ × Event))) → IsRing ring base slots.now.chains → chain ≡ chain_at base event.now
        → IsPut slots.now.chains new chain event.now → IsChosen new result }
{
    let Some(before) = first else {
        return chain;
    };
    let Some(next) = first_event(slots, before) else {
        unreachable!()
    };
    let sooner = event.goes_before(&next);
    if sooner { chain } else { before }
}
