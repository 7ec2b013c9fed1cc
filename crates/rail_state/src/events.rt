//! The events that lines are.

ghost use Rattle.std.specs.Prelude.{◌≡◌};
ghost use Rattle.rail_state.specs.Events.{command_event, section_event, train_event};

use rail_base::{SectionNo, Time, TrainNo};
use rail_queue::{Class, Event};

/// The event of a train in one of the classes whose number is that of the train. `place` is the number
/// of the move, counted from 1, or 0 where the event tells none.
pub fn event_of_train(at: Time, class: Class, train: TrainNo, place: u16) -> Event
    ensures { result ≡ train_event at class train place }
{
    let number = train.0;
    Event {
        at,
        class,
        number,
        place,
        train,
    }
}

/// The event of the command of this number, which counts from 1.
pub fn event_of_command(at: Time, number: u16) -> Event
    ensures { result ≡ command_event at number }
{
    Event {
        at,
        class: Class::Command,
        number,
        place: 0,
        train: TrainNo(0),
    }
}

/// The event that gives the section free behind the train.
pub fn event_of_section(at: Time, section: SectionNo, train: TrainNo) -> Event
    ensures { result ≡ section_event at section train }
{
    Event {
        at,
        class: Class::Free,
        number: section.0,
        place: 0,
        train,
    }
}
