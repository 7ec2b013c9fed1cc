//! Pushing the events of a move.

ghost use Rattle.std.specs.Prelude.{◌≡◌, ℕ, ◌+◌, ◌-◌, ◌*◌, ◌<◌, ◌≤◌, ◌^◌, ◌⊎◌, Bool, true, false, not, cond, List, [], ◌∷◌, length, count_by, None, Some};
ghost use Rattle.rail_laws_events.specs.Accounts.{tally};
ghost use Rattle.rail_laws_events.specs.Changes.{freed_before};
ghost use Rattle.rail_block.specs.CarriedTimes.{AreBelow};
ghost use Rattle.rail_block.specs.KnownMoves.{of_move, of_place, of_step, own_times, timed, timed_step, times_after};
ghost use Rattle.std.specs.List.{filter};
ghost use Rattle.rail_base.specs.declared.limits.TheConstants.{OVERLAP_SECTIONS};
ghost use Rattle.rail_laws_step.specs.HolderTables.{own_overlap};
ghost use Rattle.rail_rules.specs.Numbers.{is_in};
ghost use Rattle.rail_state.specs.Events.{deferred_of, end_lines, event_of, free_events, section_event, step_lines, train_event};
ghost use Rattle.rail_state.specs.Representation.{passing_event, passing_frees};
ghost use Rattle.rail_queue.specs.declared.event.Class.TheVariants.{Arrive, Ready};
ghost use Rattle.rail_queue.specs.declared.event.Event.{Event};
ghost use Rattle.rail_rules.specs.Events.{free_lines};
ghost use Rattle.rail_rules.specs.Fronts.{at_time};
ghost use Rattle.rail_rules.specs.Intervals.{does_stand, end_of, end_time};
ghost use Rattle.rail_rules.specs.Moves.{stand};
ghost use Rattle.rail_rules.specs.Plant.{claimed, is_forced, moves, moves_of, step_section, steps, trains};
ghost use Rattle.rail_rules.specs.Times.{enter, stop_time};
ghost use Rattle.rail_base.specs.declared.history.What.TheVariants.{Free};

use crate::events::{event_of_section, event_of_train};
use crate::train::{claimed_sections, overlap_behind};
use rail_base::limits::{OVERLAP_SECTIONS, ROUTE_SECTIONS};
use rail_base::{SectionNo, Time, TrainNo};
use rail_block::{KnownMove, KnownStep, MoveTimes, after};
use rail_plan::Plant;
use rail_queue::{Class, Event, EventQueue};

/// The most events that one admission brings: two for each section, the end of each section on which the
/// train stood, the arrivals before and after it with the ends of an overlap each, and the out event or the next ready
/// one.
pub const MOVE_EVENTS: usize = 3 * ROUTE_SECTIONS + 2 * OVERLAP_SECTIONS + 3;

/// Puts the event into the queue.
fn push(queue: &mut EventQueue, event: Event)
    requires { 1 ≤ queue.old.spare }
    ensures counted { (q : Event → Bool) → count_by q queue.new.events ≡ count_by q queue.old.events + count_by q (event ∷ []) }
    ensures room { length queue.new.events + queue.new.spare ≡ length queue.old.events + queue.old.spare }
    ensures spare { queue.new.spare + 1 ≡ queue.old.spare }
{
    queue.push(event);
}

/// Pushes the event of the first move's being ready, before which nothing of the train happens.
pub fn push_entry(queue: &mut EventQueue, train: TrainNo, times: &MoveTimes)
    requires { 1 ≤ queue.old.spare }
    ensures counted { (q : Event → Bool) → count_by q queue.new.events
        ≡ count_by q queue.old.events + count_by q (train_event times.now.next_ready Ready train 1 ∷ []) }
    ensures room { length queue.new.events + queue.new.spare ≡ length queue.old.events + queue.old.spare }
    ensures spare { queue.old.spare ≤ queue.new.spare + 1 }
{
    push(
        queue,
        event_of_train(times.next_ready, Class::Ready, train, 1),
    );
}

/// The sections on which the train stands after the move. Pushes leave them, so they are looked up once for all steps.
fn standing_sections<'p>(known: &KnownMove<'p>) -> &'p [SectionNo]
    ensures { result.now ≡ stand (moves_of known.now.plant.now) known.now.train known.now.place }
{
    known.plant.moves().stand(known.train, known.place)
}

/// Whether the train stands on the section of the step after the move, where it stands on these.
fn does_stand_on(step: &KnownStep, section: SectionNo, standing: &[SectionNo]) -> bool
    requires section { section ≡ of_step step_section step.now }
    requires stand { let known = step.now.of.now in standing.now ≡ stand (moves_of known.plant.now) known.train known.place }
    ensures { result ≡ of_step does_stand step.now }
{
    standing.contains(&section)
}

/// Pushes the events of the move at each of its steps: the head enters, and the section is given free
/// unless the train stands on it.
pub fn push_steps(known: &KnownMove, queue: &mut EventQueue, times: &MoveTimes)
    requires times { AreBelow (2 ^ 51) times.now }
    requires room { 2 * of_move steps known.now ≤ queue.old.spare }
    ensures counted { (adms : List ℕ) → length adms ≡ known.now.place → times.now ≡ own_times known.now adms
        → (q : Event → Bool) → count_by q queue.new.events
        ≡ count_by q queue.old.events + tally (λ e. q (event_of e)) (timed step_lines known.now adms) }
    ensures room { length queue.new.events + queue.new.spare ≡ length queue.old.events + queue.old.spare }
    ensures spare { queue.old.spare ≤ queue.new.spare + 2 * of_move steps known.now }
{
    let sections = known.row().sections.as_slice();
    let standing = standing_sections(known);
    let mut entered = times.go;
    for (index, section) in sections.iter().enumerate() {
        let step = KnownStep::new(&*known, index as u16 + 1);
        let left = step.next_enter_time(times, entered);
        push(
            queue,
            event_of_train(entered, Class::Enter, known.train, known.place),
        );
        push_left(&step, queue, *section, standing, left);
        entered = left;
    }
}

/// Pushes the event that gives the section of the step free, unless the train stands on it. The head enters
/// the section after it at `left`; after the move it stands on the sections of `standing`.
fn push_left(
    step: &KnownStep,
    queue: &mut EventQueue,
    section: SectionNo,
    standing: &[SectionNo],
    left: Time,
)
    requires section { section ≡ of_step step_section step.now }
    requires stand { let known = step.now.of.now in standing.now ≡ stand (moves_of known.plant.now) known.train known.place }
    requires left { left < 2 ^ 52 }
    requires room { 1 ≤ queue.old.spare }
    ensures counted { (adms : List ℕ) → length adms ≡ step.now.of.now.place
        → left ≡ timed enter step.now.of.now adms step.now.step
        → (q : Event → Bool) → count_by q queue.new.events ≡ count_by q queue.old.events
        + tally (λ e. q (event_of e)) (free_lines step.now.of.now.train section (timed_step end_of step.now adms)) }
    ensures room { length queue.new.events + queue.new.spare ≡ length queue.old.events + queue.old.spare }
    ensures spare { queue.old.spare ≤ queue.new.spare + 1 }
{
    // Before its last place a train of a plant that may be run stands on the last section of its move, so
    // what is given free here is left as the head enters the next section.
    if does_stand_on(step, section, standing) {
        return;
    }
    let ended = step.end_when_left(left);
    push(queue, event_of_section(ended, section, step.of.train));
}

/// Pushes the events that give free the sections on which the train stood after the move; `next` is the
/// times of the move after it.
pub fn push_stood(known: &KnownMove, queue: &mut EventQueue, next: &MoveTimes)
    requires times { AreBelow (2 ^ 51) next.now }
    requires room { of_move steps known.now ≤ queue.old.spare }
    ensures counted { (adms : List ℕ) → length adms ≡ known.now.place + 1 → next.now ≡ times_after known.now adms
        → (q : Event → Bool) → count_by q queue.new.events ≡ count_by q queue.old.events
        + tally (λ e. q (event_of e)) (freed_before known.now.plant.now known.now.train adms known.now.place) }
    ensures room { length queue.new.events + queue.new.spare ≡ length queue.old.events + queue.old.spare }
    ensures spare { queue.old.spare ≤ queue.new.spare + of_move steps known.now }
{
    let sections = known.row().sections.as_slice();
    let standing = standing_sections(known);
    for (index, section) in sections.iter().enumerate() {
        let step = KnownStep::new(&*known, index as u16 + 1);
        push_if_stood(&step, queue, *section, standing, next);
    }
}

/// Pushes the event that gives the section of the step free if the train stood on it; `next` is the times of
/// the move after that of the step. After the move of the step it stands on the sections of `standing`.
fn push_if_stood(
    step: &KnownStep,
    queue: &mut EventQueue,
    section: SectionNo,
    standing: &[SectionNo],
    next: &MoveTimes,
)
    requires section { section ≡ of_step step_section step.now }
    requires stand { let known = step.now.of.now in standing.now ≡ stand (moves_of known.plant.now) known.train known.place }
    requires times { AreBelow (2 ^ 51) next.now }
    requires room { 1 ≤ queue.old.spare }
    ensures counted { (adms : List ℕ) → next.now ≡ times_after step.now.of.now adms → (q : Event → Bool)
        → count_by q queue.new.events ≡ count_by q queue.old.events + tally (λ e. q (event_of e))
        (cond (of_step does_stand step.now) (at_time (timed_step end_time step.now adms) (Free section step.now.of.now.train) ∷ []) []) }
    ensures room { length queue.new.events + queue.new.spare ≡ length queue.old.events + queue.old.spare }
    ensures spare { queue.old.spare ≤ queue.new.spare + 1 }
{
    if !does_stand_on(step, section, standing) {
        return;
    }
    let ended = step.end_when_stood(next);
    push(queue, event_of_section(ended, section, step.of.train));
}

/// Pushes the arrival of a train that passes at the place at which the move begins, and the events that give the
/// overlap there free, but what the move claims: that is taken over.
pub fn push_passing(known: &KnownMove, queue: &mut EventQueue, times: &MoveTimes)
    requires times { AreBelow (2 ^ 51) times.now }
    requires behind { 1 < known.now.place }
    requires passes { times.now.passes ≡ true }
    requires room { OVERLAP_SECTIONS + 1 ≤ queue.old.spare }
    ensures counted { (q : Event → Bool) → count_by q queue.new.events ≡ count_by q queue.old.events
        + count_by q (passing_event known.now.train (known.now.place - 1) times.now)
        + count_by q (passing_frees known.now.plant.now known.now.train (known.now.place - 1) times.now) }
    ensures room { length queue.new.events + queue.new.spare ≡ length queue.old.events + queue.old.spare }
    ensures spare { queue.old.spare ≤ queue.new.spare + OVERLAP_SECTIONS + 1 }
{
    let (plant, train, place) = (known.plant, known.train, known.place);
    push(
        queue,
        event_of_train(times.go, Class::Arrive, train, place - 1),
    );
    let timer = after(times.go, u64::from(plant.overlap_time()));
    let own = overlap_behind(plant, train, place - 1);
    push_unclaimed(
        queue,
        own,
        claimed_sections(plant, train, place),
        train,
        timer,
    );
}

/// Pushes the events that give these sections free at this time, but those that are claimed.
fn push_unclaimed(
    queue: &mut EventQueue,
    sections: &[SectionNo],
    claimed: &[SectionNo],
    train: TrainNo,
    at: Time,
)
    requires room { length sections.now ≤ queue.old.spare }
    ensures counted { (q : Event → Bool) → count_by q queue.new.events ≡ count_by q queue.old.events
        + count_by q (free_events at train (filter (λ x. not (is_in x claimed.now)) sections.now)) }
    ensures room { length queue.new.events + queue.new.spare ≡ length queue.old.events + queue.old.spare }
    ensures spare { queue.old.spare ≤ queue.new.spare + length sections.now }
{
    for section in sections {
        push_if_unclaimed(queue, *section, claimed, train, at);
    }
}

/// Pushes the event that gives the section free at this time, unless it is claimed.
fn push_if_unclaimed(
    queue: &mut EventQueue,
    section: SectionNo,
    claimed: &[SectionNo],
    train: TrainNo,
    at: Time,
)
    requires room { 1 ≤ queue.old.spare }
    ensures counted { (q : Event → Bool) → count_by q queue.new.events ≡ count_by q queue.old.events
        + cond (is_in section claimed.now) 0 (count_by q (section_event at section train ∷ [])) }
    ensures room { length queue.new.events + queue.new.spare ≡ length queue.old.events + queue.old.spare }
    ensures spare { queue.old.spare ≤ queue.new.spare + 1 }
{
    if !claimed.contains(&section) {
        push(queue, event_of_section(at, section, train));
    }
}

/// When the overlap of the move, whose times these are, is given free if the train stops behind it.
pub fn stop_timer(known: &KnownMove, times: &MoveTimes) -> Time
    requires { AreBelow (2 ^ 51) times.now }
    ensures { result ≡ stop_time known.now.plant.now known.now.train times.now.free_run + known.now.plant.now.tables.overlap_time }
{
    after(known.stop_at(times), u64::from(known.plant.overlap_time()))
}

/// Pushes the events that give the overlap of the move to this place free: so long after the arrival there.
pub fn push_overlap(
    plant: &Plant,
    queue: &mut EventQueue,
    train: TrainNo,
    place: u16,
    arrival: Time,
)
    requires train { train < trains plant.now }
    requires last { place ≤ moves plant.now train }
    requires time { arrival < 2 ^ 53 }
    requires room { OVERLAP_SECTIONS ≤ queue.old.spare }
    ensures counted { (q : Event → Bool) → count_by q queue.new.events ≡ count_by q queue.old.events
        + count_by q (free_events (arrival + plant.now.tables.overlap_time) train (own_overlap plant.now train place)) }
    ensures room { length queue.new.events + queue.new.spare ≡ length queue.old.events + queue.old.spare }
    ensures spare { queue.old.spare ≤ queue.new.spare + OVERLAP_SECTIONS }
{
    let timer = after(arrival, u64::from(plant.overlap_time()));
    push_unclaimed(
        queue,
        overlap_behind(plant, train, place),
        &[],
        train,
        timer,
    );
}

/// Pushes what is known of the end of the move: after the last move the arrival and the out event; else the
/// ready event of the next move and, where the train stops in any case, its arrival and the ends of the overlap.
/// The answer is the arrival by a stop where the train may still pass: it is deferred, and so are the ends of the
/// overlap.
pub fn push_end(known: &KnownMove, queue: &mut EventQueue, times: &MoveTimes) -> Option<Time>
    requires times { AreBelow (2 ^ 51) times.now }
    requires room { OVERLAP_SECTIONS + 2 ≤ queue.old.spare }
    ensures counted { (adms : List ℕ) → length adms ≡ known.now.place → times.now ≡ own_times known.now adms
        → (q : Event → Bool) → count_by q queue.new.events
        + count_by q (deferred_of known.now.plant.now known.now.train known.now.place result)
        ≡ count_by q queue.old.events + tally (λ e. q (event_of e)) (timed end_lines known.now adms) }
    ensures deferred { (at : ℕ) → result ≡ Some at → (of_place is_forced known.now ≡ false)
        × (known.now.place < moves known.now.plant.now known.now.train)
        × (at ≡ stop_time known.now.plant.now known.now.train times.now.free_run) }
    ensures not_deferred { result ≡ None → (of_place is_forced known.now ≡ true)
        ⊎ (known.now.place ≡ moves known.now.plant.now known.now.train) }
    ensures room { length queue.new.events + queue.new.spare ≡ length queue.old.events + queue.old.spare }
    ensures spare { queue.old.spare ≤ queue.new.spare + OVERLAP_SECTIONS + 2 }
{
    if known.place == known.last_place() {
        push(
            queue,
            event_of_train(times.free_run, Class::Arrive, known.train, known.place),
        );
        push(
            queue,
            event_of_train(known.out_time(times), Class::Out, known.train, 0),
        );
        return None;
    }
    push(
        queue,
        event_of_train(times.next_ready, Class::Ready, known.train, known.place + 1),
    );
    let stop = known.stop_at(times);
    if known.is_forced() {
        push(
            queue,
            event_of_train(stop, Class::Arrive, known.train, known.place),
        );
        push_overlap(known.plant, queue, known.train, known.place, stop);
        return None;
    }
    Some(stop)
}
