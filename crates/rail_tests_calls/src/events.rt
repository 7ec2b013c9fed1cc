//! In which order events come, which are forgotten, and in which chains they lie.

ghost use Rattle.std.specs.Prelude.{◌≡◌, ℕ, ◌≤◌, IfOk, count_by};
ghost use Rattle.rail_queue.specs.Order.{is_of};
ghost use Rattle.rail_queue.specs.declared.event.Class.TheVariants.{Free};

use rail_base::{OutOfMemory, Time, TrainNo};
use rail_queue::{Class, Event, EventQueue};
use std::alloc::Global;

fn event(at: u64, class: Class, number: u16, place: u16) -> Event
    ensures class { result.class ≡ class }
    ensures number { result.number ≡ number }
{
    Event {
        at: Time(at),
        class,
        number,
        place,
        train: TrainNo(0),
    }
}

/// A queue with room for these events alone, which were pushed in this order.
fn queue_of(alloc: Global, events: &[Event]) -> Result<EventQueue, OutOfMemory> {
    let mut queue = EventQueue::with_room(alloc, events.len())?;
    for event in events {
        if queue.spare() > 0 {
            queue.push(*event);
        }
    }
    Ok(queue)
}

/// The place of the event, if there is one.
fn place_of(event: Option<Event>) -> Option<u16> {
    match event {
        Some(event) => Some(event.place),
        None => None,
    }
}

/// For how many events there is room, when the first one comes, the places of the first five in their order,
/// and for how many there is room then.
type Told = (usize, Option<Time>, [Option<u16>; 5], usize);

/// What is told of the queue.
fn told(queue: &mut EventQueue) -> Told {
    let spare = queue.spare();
    let time = queue.first_time();
    let first = place_of(queue.pop());
    let second = place_of(queue.pop());
    let third = place_of(queue.pop());
    let fourth = place_of(queue.pop());
    let fifth = place_of(queue.pop());
    (
        spare,
        time,
        [first, second, third, fourth, fifth],
        queue.spare(),
    )
}

#[test]
fn events_come_by_time_class_and_number(rt: HostRuntime) {
    let places = [Some(3), Some(4), Some(2), Some(1), None];
    assert!(rt; pushed(rt.alloc()) == Ok((0, Some(Time(10)), places, 4)));
}

fn pushed(alloc: Global) -> Result<Told, OutOfMemory> {
    let events = [
        event(20, Class::Free, 1, 1),
        event(10, Class::Out, 1, 2),
        event(10, Class::Enter, 2, 3),
        event(10, Class::Enter, 2, 4),
    ];
    let mut queue = queue_of(alloc, &events)?;
    Ok(told(&mut queue))
}

#[test]
fn events_of_a_class_and_a_number_are_forgotten(rt: HostRuntime) {
    let places = [Some(3), Some(4), Some(5), None, None];
    assert!(rt; left_of_five(rt.alloc()) == Ok((2, Some(Time(10)), places, 5)));
}

/// Of five events, without those that give section 1 free.
fn left_of_five(alloc: Global) -> Result<Told, OutOfMemory> {
    let events = [
        event(20, Class::Free, 1, 1),
        event(10, Class::Free, 1, 2),
        event(10, Class::Free, 2, 3),
        event(10, Class::Ready, 1, 4),
        event(30, Class::Free, 3, 5),
    ];
    let mut queue = queue_of(alloc, &events)?;
    queue.forget(Class::Free, 1);
    Ok(told(&mut queue))
}

#[test]
fn nothing_is_forgotten_where_the_number_is_of_another_class(rt: HostRuntime) {
    let places = [Some(1), Some(2), None, None, None];
    assert!(rt; left_of_two(rt.alloc()) == Ok((0, Some(Time(10)), places, 2)));
}

/// Of two events, without those of the class of the one and the number of the other.
fn left_of_two(alloc: Global) -> Result<Told, OutOfMemory> {
    let events = [
        event(10, Class::Enter, 4, 1),
        event(10, Class::Command, 3, 2),
    ];
    let mut queue = queue_of(alloc, &events)?;
    queue.forget(Class::Enter, 3);
    queue.forget(Class::Command, 4);
    Ok(told(&mut queue))
}

#[test]
fn an_event_is_forgotten_at_its_time_or_elsewhere(rt: HostRuntime) {
    let near = (1, Some(Time(140)), [Some(2), Some(3), None, None, None], 3);
    let far = (1, Some(Time(130)), [Some(1), Some(2), None, None, None], 3);
    let elsewhere = (1, Some(Time(130)), [Some(1), Some(3), None, None, None], 3);
    let none = (
        0,
        Some(Time(130)),
        [Some(1), Some(2), Some(3), None, None],
        3,
    );
    assert!(rt; left_of_three(rt.alloc()) == Ok([near, far, elsewhere, none]));
}

/// Of three events, without the near one and without the far one, each at its time, without one that happens at
/// another time, and without one that isn't there.
fn left_of_three(alloc: Global) -> Result<[Told; 4], OutOfMemory> {
    Ok([
        left_without(alloc, 130, 1)?,
        left_without(alloc, FAR, 3)?,
        left_without(alloc, 0, 2)?,
        left_without(alloc, 130, 4)?,
    ])
}

/// What is left where the event that gives the section free is looked for at this time.
fn left_without(alloc: Global, at: u64, section: u16) -> Result<Told, OutOfMemory> {
    let mut queue = freeing_three(alloc)?;
    queue.forget_at(Time(at), Class::Free, section);
    Ok(told(&mut queue))
}

/// A queue of three events, which give the sections 1 to 3 free; the last one is far.
fn freeing_three(alloc: Global) -> Result<EventQueue, OutOfMemory>
    ensures { IfOk result (λ queue. (section : ℕ) → count_by (is_of Free section) queue.events ≤ 1) }
{
    let mut queue = EventQueue::with_room(alloc, 3)?;
    queue.push(event(130, Class::Free, 1, 1));
    queue.push(event(140, Class::Free, 2, 2));
    queue.push(event(FAR, Class::Free, 3, 3));
    Ok(queue)
}

const FAR: u64 = 64 * 1024;

/// The bases, how many steps were made, whether these chains are empty, and the places.
type ToldOfChains = ([u64; 3], u64, [bool; 4], [Option<u16>; 5]);

#[test]
fn near_events_lie_in_the_chains_of_their_buckets(rt: HostRuntime) {
    let are_empty = [true, false, false, false];
    let places = [Some(2), Some(3), Some(1), Some(4), None];
    assert!(rt; told_of_chains(rt.alloc()) == Ok(([0, 2, 1024], 1, are_empty, places)));
}

/// What is told where two events are near and one far, and then of one more that is near after the first came.
fn told_of_chains(alloc: Global) -> Result<ToldOfChains, OutOfMemory> {
    let mut queue = EventQueue::with_room(alloc, 4)?;
    queue.push(event(FAR, Class::Free, 1, 1));
    queue.push(event(130, Class::Free, 1, 2));
    queue.push(event(130, Class::Free, 1, 3));
    let base = queue.base();
    let is_none_in_first = queue.slots().first(0) == None;
    let is_none_near = queue.slots().first(2) == None;
    let is_none_far = queue.slots().first(1024) == None;
    let walked = queue.slots().walked();
    let first = place_of(queue.pop());
    let base_behind = queue.base();
    queue.push(event(FAR, Class::Free, 1, 4));
    let is_none_then = queue.slots().first(0) == None;
    let second = place_of(queue.pop());
    let third = place_of(queue.pop());
    let fourth = place_of(queue.pop());
    Ok((
        [base, base_behind, queue.base()],
        walked,
        [is_none_in_first, is_none_near, is_none_far, is_none_then],
        [first, second, third, fourth, place_of(queue.first())],
    ))
}
