//! The events and the sections of a move that is admitted.

ghost use Rattle.std.specs.Prelude.{◌≡◌, ℕ, suc, ◌+◌, ◌-◌, ◌<◌, ◌≤◌, ◌^◌, ◌⊎◌, ◌&&◌, Bool, true, false, not, List, Option, Some, None, get_or, set, length, count_by};
ghost use Rattle.std.specs.List.{All, filter};
ghost use Rattle.rail_laws_events.specs.Accounts.{tally};
ghost use Rattle.rail_laws_events.specs.Changes.{freed_before};
ghost use Rattle.rail_base.specs.declared.limits.TheConstants.{OVERLAP_SECTIONS, ROUTE_SECTIONS};
ghost use Rattle.rail_block.specs.CarriedTimes.{AreBelow};
ghost use Rattle.rail_block.specs.KnownMoves.{of_move, of_place, own_times, timed};
ghost use Rattle.rail_block.specs.declared.times.MoveTimes.{MoveTimes};
ghost use Rattle.rail_state.specs.Admissions.{CanBeTaken};
ghost use Rattle.rail_state.specs.Events.{AreFreedOnce, deferred_of, end_lines, event_of, is_free_of, step_lines};
ghost use Rattle.rail_laws_step.specs.HolderTables.{held_cause, is_train, own_overlap, taken_by};
ghost use Rattle.rail_queue.specs.declared.event.Event.{Event};
ghost use Rattle.rail_queue.specs.declared.event.Class.TheVariants.{Free};
ghost use Rattle.rail_queue.specs.Order.{is_of};
ghost use Rattle.rail_state.specs.TrainStates.{state_of};
ghost use Rattle.rail_rules.specs.Numbers.{is_in};
ghost use Rattle.rail_rules.specs.Plant.{claimed, is_forced, moves};
ghost use Rattle.rail_rules.specs.Times.{stop_time};
ghost use Rattle.rail_state.specs.Representation.{forgotten, passing_event, passing_frees, taken_over};
ghost use Rattle.rail_state.specs.declared.pushes.TheConstants.{MOVE_EVENTS};

use crate::pushes::{push_end, push_passing, push_steps, push_stood, stop_timer};
use crate::train::{claimed_sections, overlap_behind};
use rail_base::{SectionNo, Time, TrainNo};
use rail_block::{KnownMove, MoveTimes};
use rail_holders::Holders;
use rail_queue::{Class, EventQueue};

/// Pushes the events that are known once the move is admitted, and takes out the ends of what it takes over of the
/// train's own overlap. `last` is the times of the move before, which tell when these ends are pending. The answer is
/// the arrival that is deferred.
pub(crate) fn push_move(
    known: &KnownMove,
    queue: &mut EventQueue,
    times: &MoveTimes,
    last: &MoveTimes,
    holders: &Holders,
) -> Option<Time>
    requires times { AreBelow (2 ^ 51) times.now }
    requires last { AreBelow (2 ^ 51) last.now }
    requires sections { length holders.now ≡ length known.now.plant.now.tables.sections }
    requires single { AreFreedOnce (taken_over known.now.plant.now holders.now known.now.train (known.now.place - 1)) queue.old.events }
    requires room { MOVE_EVENTS ≤ queue.old.spare }
    ensures counted { (adms : List ℕ) → length adms ≡ known.now.place → times.now ≡ own_times known.now adms
        → (q : Event → Bool) → count_by q queue.new.events
        + count_by q (deferred_of known.now.plant.now known.now.train known.now.place result)
        ≡ count_by (λ e. not (is_free_of (forgotten known.now.plant.now holders.now known.now.train (known.now.place - 1) times.now) e) && q e) queue.old.events
        + tally (λ e. q (event_of e)) (timed freed_before known.now adms)
        + count_by q (passing_event known.now.train (known.now.place - 1) times.now)
        + count_by q (passing_frees known.now.plant.now known.now.train (known.now.place - 1) times.now)
        + tally (λ e. q (event_of e)) (timed step_lines known.now adms) + tally (λ e. q (event_of e)) (timed end_lines known.now adms) }
    ensures deferred { (at : ℕ) → result ≡ Some at → (of_place is_forced known.now ≡ false)
        × (known.now.place < moves known.now.plant.now known.now.train)
        × (at ≡ stop_time known.now.plant.now known.now.train times.now.free_run) }
    ensures not_deferred { result ≡ None → (of_place is_forced known.now ≡ true)
        ⊎ (known.now.place ≡ moves known.now.plant.now known.now.train) }
    ensures room { length queue.new.events + queue.new.spare ≡ length queue.old.events + queue.old.spare }
{
    push_beginning(known, queue, times, last, holders);
    push_steps(known, queue, times);
    push_end(known, queue, times)
}

/// Pushes the events at the place at which the move begins: the sections on which the train stood there are
/// given free. Where it passes it arrives there, and so the overlap there ends; else the ends of what the move takes
/// over of this overlap are taken out. Before the first move there is nothing of this. `last` is the times of the move
/// before.
fn push_beginning(
    known: &KnownMove,
    queue: &mut EventQueue,
    times: &MoveTimes,
    last: &MoveTimes,
    holders: &Holders,
)
    requires times { AreBelow (2 ^ 51) times.now }
    requires last { AreBelow (2 ^ 51) last.now }
    requires sections { length holders.now ≡ length known.now.plant.now.tables.sections }
    requires single { AreFreedOnce (taken_over known.now.plant.now holders.now known.now.train (known.now.place - 1)) queue.old.events }
    requires room { ROUTE_SECTIONS + OVERLAP_SECTIONS + 1 ≤ queue.old.spare }
    ensures counted { (adms : List ℕ) → length adms ≡ known.now.place → times.now ≡ own_times known.now adms
        → (q : Event → Bool) → count_by q queue.new.events
        ≡ count_by (λ e. not (is_free_of (forgotten known.now.plant.now holders.now known.now.train (known.now.place - 1) times.now) e) && q e) queue.old.events
        + tally (λ e. q (event_of e)) (timed freed_before known.now adms)
        + count_by q (passing_event known.now.train (known.now.place - 1) times.now)
        + count_by q (passing_frees known.now.plant.now known.now.train (known.now.place - 1) times.now) }
    ensures room { length queue.new.events + queue.new.spare ≡ length queue.old.events + queue.old.spare }
    ensures spare { queue.old.spare ≤ queue.new.spare + ROUTE_SECTIONS + OVERLAP_SECTIONS + 1 }
{
    if known.place == 1 {
        return;
    }
    end_overlap(known, queue, times, last, holders);
    let before = KnownMove::new(known.plant, known.train, known.place - 1);
    push_stood(&before, queue, times);
}

/// Where the train passes at the place at which the move begins, it arrives there, and the overlap there ends; else the
/// ends of what the move takes over of it are taken out. `last` is the times of the move before.
fn end_overlap(
    known: &KnownMove,
    queue: &mut EventQueue,
    times: &MoveTimes,
    last: &MoveTimes,
    holders: &Holders,
)
    requires times { AreBelow (2 ^ 51) times.now }
    requires last { AreBelow (2 ^ 51) last.now }
    requires behind { 1 < known.now.place }
    requires sections { length holders.now ≡ length known.now.plant.now.tables.sections }
    requires single { AreFreedOnce (taken_over known.now.plant.now holders.now known.now.train (known.now.place - 1)) queue.old.events }
    requires room { OVERLAP_SECTIONS + 1 ≤ queue.old.spare }
    ensures counted { (q : Event → Bool) → count_by q queue.new.events
        ≡ count_by (λ e. not (is_free_of (forgotten known.now.plant.now holders.now known.now.train (known.now.place - 1) times.now) e) && q e) queue.old.events
        + count_by q (passing_event known.now.train (known.now.place - 1) times.now)
        + count_by q (passing_frees known.now.plant.now known.now.train (known.now.place - 1) times.now) }
    ensures room { length queue.new.events + queue.new.spare ≡ length queue.old.events + queue.old.spare }
    ensures spare { queue.old.spare ≤ queue.new.spare + OVERLAP_SECTIONS + 1 }
{
    if times.passes {
        push_passing(known, queue, times);
        return;
    }
    forget_taken(known, queue, last, holders);
}

/// Takes out the events that would give free what the move takes over of the train's own overlap: the sections that it
/// claims and that the train holds still. They are looked for where its timer runs out after a stop; `last` is the
/// times of the move before.
fn forget_taken(known: &KnownMove, queue: &mut EventQueue, last: &MoveTimes, holders: &Holders)
    requires last { AreBelow (2 ^ 51) last.now }
    requires behind { 1 < known.now.place }
    requires sections { length holders.now ≡ length known.now.plant.now.tables.sections }
    requires single { AreFreedOnce (taken_over known.now.plant.now holders.now known.now.train (known.now.place - 1)) queue.old.events }
    ensures counted { (q : Event → Bool) → count_by q queue.new.events
        ≡ count_by (λ e. not (is_free_of (taken_over known.now.plant.now holders.now known.now.train (known.now.place - 1)) e) && q e) queue.old.events }
    ensures room { length queue.new.events + queue.new.spare ≡ length queue.old.events + queue.old.spare }
{
    let before = KnownMove::new(known.plant, known.train, known.place - 1);
    let timer = stop_timer(&before, last);
    let own = overlap_behind(known.plant, known.train, known.place - 1);
    let claimed = claimed_sections(known.plant, known.train, known.place);
    forget_each(queue, own, claimed, holders, known.train, timer);
}

/// Takes out the events that would give those of the sections free that are claimed and that the train holds. They are
/// looked for at `timer`.
fn forget_each(
    queue: &mut EventQueue,
    sections: &[SectionNo],
    claimed: &[SectionNo],
    holders: &Holders,
    train: TrainNo,
    timer: Time,
)
    requires known { All (λ x. x < length holders.now) sections.now }
    requires single { AreFreedOnce (filter (λ x. is_in x claimed.now && is_train train (get_or holders.now x None)) sections.now) queue.old.events }
    ensures counted { (q : Event → Bool) → count_by q queue.new.events
        ≡ count_by (λ e. not (is_free_of (filter (λ x. is_in x claimed.now && is_train train (get_or holders.now x None)) sections.now) e) && q e) queue.old.events }
    ensures room { length queue.new.events + queue.new.spare ≡ length queue.old.events + queue.old.spare }
{
    for section in sections {
        forget_if_taken(queue, *section, claimed, holders, train, timer);
    }
}

/// Takes out what would give the section free, where that is claimed and the train holds it. It is looked for at `timer`.
fn forget_if_taken(
    queue: &mut EventQueue,
    section: SectionNo,
    claimed: &[SectionNo],
    holders: &Holders,
    train: TrainNo,
    timer: Time,
)
    requires known { section < length holders.now }
    requires single { (is_in section claimed.now && is_train train (get_or holders.now section None)) ≡ true
        → count_by (is_of Free section) queue.old.events ≤ 1 }
    ensures counted { (q : Event → Bool) → count_by q queue.new.events
        ≡ count_by (λ e. not ((is_in section claimed.now && is_train train (get_or holders.now section None)) && is_of Free section e) && q e) queue.old.events }
    ensures room { length queue.new.events + queue.new.spare ≡ length queue.old.events + queue.old.spare }
{
    if is_taken(section, claimed, holders, train) {
        queue.forget_at(timer, Class::Free, section.0);
    }
}

/// Whether the section is claimed and the train holds it.
fn is_taken(section: SectionNo, claimed: &[SectionNo], holders: &Holders, train: TrainNo) -> bool
    requires { section < length holders.now }
    ensures { result ≡ (is_in section claimed.now && is_train train (get_or holders.now section None)) }
{
    claimed.contains(&section) && is_holder(holders, train, section)
}

/// Whether the train holds the section.
fn is_holder(holders: &Holders, train: TrainNo, section: SectionNo) -> bool
    requires { section < length holders.now }
    ensures { result ≡ is_train train (get_or holders.now section None) }
{
    match holders.holder(section) {
        Some(holder) => holder == train,
        None => false,
    }
}

/// The train takes the sections that the move claims, whose holders don't bar the train.
pub(crate) fn take_sections(known: &KnownMove, holders: &mut Holders)
    requires sections { length holders.old ≡ length known.now.plant.now.tables.sections }
    requires free { held_cause holders.old known.now.train (of_move own_overlap known.now) (of_move claimed known.now) ≡ None }
    ensures { holders.new ≡ taken_by holders.old (of_move claimed known.now) known.now.train }
{
    let sections = claimed_sections(known.plant, known.train, known.place);
    let own = overlap_behind(known.plant, known.train, known.place - 1);
    take_each(holders, own, sections, known.train);
}

/// The train takes these sections, which are known and distinct, and whose holders don't bar the train: what it holds
/// of its own overlap it keeps.
fn take_each(holders: &mut Holders, own: &[SectionNo], sections: &[SectionNo], train: TrainNo)
    requires { CanBeTaken holders.old train own.now sections.now }
    ensures { holders.new ≡ taken_by holders.old sections.now train }
{
    for section in sections {
        take_free(holders, *section, train);
    }
}

/// The train holds the section from now on, if nobody did.
fn take_free(holders: &mut Holders, section: SectionNo, train: TrainNo)
    requires section { section < length holders.old }
    requires holder { get_or holders.old section None ≡ None ⊎ get_or holders.old section None ≡ Some train }
    ensures { holders.new ≡ set holders.old section (Some train) }
{
    if holders.holder(section).is_none() {
        holders.take(section, train);
    }
}
