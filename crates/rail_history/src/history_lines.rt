//! Which entries with their lists are lines of a history.

ghost use Rattle.std.specs.Prelude.{◌≡◌, ◌&&◌, length, nat_lt};
ghost use Rattle.std.specs.List.{list_all};
ghost use Rattle.rail_text.specs.Names.{HasNames};
ghost use Rattle.rail_history.specs.HistoryLines.{does_fit_note, is_history_line, is_history_what};
ghost use Rattle.rail_history.specs.Lines.{line_of};
ghost use Rattle.rail_history.specs.ReadWords.{is_small};
ghost use Rattle.rail_rules.specs.Plant.{Plant};
ghost use Rattle.rail_rules.specs.WritableLines.{does_fit_counter, is_writable_cause};

use rail_base::limits::LIST_TRAINS;
use rail_base::{Cause, Entry, Names, Note, SectionNo, Time, TrainNo, What};

/// Whether the entry, with the list that it brings, is a line of a history.
pub(crate) fn is_history_line(names: &Names, entry: &Entry, kept: &[TrainNo]) -> bool
    ensures { (plant : Plant) → HasNames plant names.now → result ≡ is_history_line plant (line_of entry.now kept.now) }
{
    is_time(entry.at) && is_history_what(names, entry, kept)
}

/// Whether what the entry says, with the list that it brings, can stand on a line of a history.
fn is_history_what(names: &Names, entry: &Entry, kept: &[TrainNo]) -> bool
    ensures { (plant : Plant) → HasNames plant names.now → result ≡ is_history_what plant (line_of entry.now kept.now) }
{
    match entry.what {
        What::Free { section, train } => has_both(names, section, train),
        What::Arrive { train, place } => has_move(names, train, place),
        What::Enter {
            train,
            place,
            section,
        } => has_move(names, train, place) && has_section(names, section),
        What::Out { train } => has_train(names, train),
        What::Ready { train, place } => has_move(names, train, place),
        What::Told { command } => is_number(command),
        What::Untold { command } => is_number(command),
        What::Admit { train, place, note } => {
            has_move(names, train, place) && does_fit_note(names, note, kept)
        }
        What::Hold {
            train,
            place,
            cause,
        } => has_move(names, train, place) && has_cause(names, cause),
        What::End => has_trains(names, kept),
    }
}

/// Whether a line may have the time: any of 64 bits.
fn is_time(_time: Time) -> bool
    ensures { result ≡ does_fit_counter _time }
{
    true
}

/// Whether a move or a command may have the number: any of 16 bits.
fn is_number(_number: u16) -> bool
    ensures { result ≡ is_small _number }
{
    true
}

/// Whether the train has a name, and a move may have the number.
fn has_move(names: &Names, train: TrainNo, place: u16) -> bool
    ensures { result ≡ (nat_lt train (length names.now.trains.keys) && is_small place) }
{
    has_train(names, train) && is_number(place)
}

/// Whether the list may stand behind the note.
fn does_fit_note(names: &Names, note: Note, kept: &[TrainNo]) -> bool
    ensures { (plant : Plant) → HasNames plant names.now → result ≡ does_fit_note plant note kept.now }
{
    match note {
        Note::Pulled => true,
        Note::Appended => true,
        Note::Fresh => !kept.is_empty() && kept.len() <= LIST_TRAINS && has_trains(names, kept),
    }
}

/// Whether what the cause names has names.
fn has_cause(names: &Names, cause: Cause) -> bool
    ensures { (plant : Plant) → HasNames plant names.now → result ≡ is_writable_cause plant cause }
{
    match cause {
        Cause::Stopped => true,
        Cause::Closed { section } => has_section(names, section),
        Cause::Blocked { section, holder } => has_both(names, section, holder),
        Cause::NoList => true,
    }
}

/// Whether each of the trains has a name.
fn has_trains(names: &Names, trains: &[TrainNo]) -> bool
    ensures { result ≡ list_all (λ t. nat_lt t (length names.now.trains.keys)) trains.now }
{
    trains.iter().all(|train| has_train(names, *train))
}

/// Whether the section and the train have names.
fn has_both(names: &Names, section: SectionNo, train: TrainNo) -> bool
    ensures { result ≡ (nat_lt section (length names.now.sections.keys) && nat_lt train (length names.now.trains.keys)) }
{
    has_section(names, section) && has_train(names, train)
}

/// Whether the train has a name.
fn has_train(names: &Names, train: TrainNo) -> bool
    ensures { result ≡ nat_lt train (length names.now.trains.keys) }
{
    usize::from(train.0) < names.trains.len()
}

/// Whether the section has a name.
fn has_section(names: &Names, section: SectionNo) -> bool
    ensures { result ≡ nat_lt section (length names.now.sections.keys) }
{
    usize::from(section.0) < names.sections.len()
}
