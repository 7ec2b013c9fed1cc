//! The words of a line behind its time, put at the end of the line one after another.

ghost use Rattle.std.specs.Prelude.{◌≡◌, ◌+◌, ◌≤◌, [], ◌∷◌, ◌++◌, length, decimal};
ghost use Rattle.rail_base.specs.declared.history.What.TheVariants.{Free, Out};
ghost use Rattle.rail_rules.specs.Fronts.{Line};
ghost use Rattle.rail_rules.specs.Plant.{Plant};
ghost use Rattle.rail_rules.specs.Texts.{cause_words, train_word, what_words};
ghost use Rattle.rail_rules.specs.Texts.{behind};
ghost use Rattle.rail_text.specs.Names.{HasNames};
ghost use Rattle.rail_history.specs.Lines.{bare, note_word};
ghost use Rattle.rail_text.specs.declared.line_buffer.TheConstants.{ROOM};

use rail_base::{Cause, Entry, Names, Note, SectionNo, TrainNo, What};
use rail_text::LineBuffer;

/// Puts the words of an entry behind its time.
// In line, so that the entry is not handed on through memory; what it calls is small enough beside it.
#[inline(always)]
pub(crate) fn put_what(line: &mut LineBuffer, names: &Names, entry: &Entry)
    requires { length line.old + 128 ≤ ROOM }
    ensures text { (plant : Plant) → HasNames plant names.now
        → line.new ≡ line.old ++ behind (what_words plant (bare entry.now) entry.now.what) }
    ensures short { length line.new ≤ length line.old + 128 }
{
    match entry.what {
        What::Free { section, train } => put_free(line, names, section, train),
        What::Arrive { train, place } => {
            put_verb(line, b"arrive");
            put_move(line, names, train, place);
        }
        What::Enter {
            train,
            place,
            section,
        } => {
            put_verb(line, b"enter");
            put_move(line, names, train, place);
            line.put_section(names, section);
        }
        What::Out { train } => put_out(line, names, train),
        What::Ready { train, place } => {
            put_verb(line, b"ready");
            put_move(line, names, train, place);
        }
        What::Told { command } => put_command(line, b"told", command),
        What::Untold { command } => put_command(line, b"untold", command),
        What::Admit { train, place, note } => {
            put_verb(line, b"admit");
            put_move(line, names, train, place);
            put_note(line, note);
        }
        What::Hold {
            train,
            place,
            cause,
        } => {
            line.put_word(b"hold");
            put_move(line, names, train, place);
            put_cause(line, names, cause);
        }
        What::End => line.put_word(b"end"),
    }
}

/// Puts the words of a section that is given free behind a train.
#[inline]
fn put_free(line: &mut LineBuffer, names: &Names, section: SectionNo, train: TrainNo)
    requires { length line.old + 39 ≤ ROOM }
    ensures text { (plant : Plant) → HasNames plant names.now
        → (of : Line) → line.new ≡ line.old ++ behind (what_words plant of (Free section train)) }
    ensures short { length line.new ≤ length line.old + 39 }
{
    line.put_word(b"free");
    line.put_section(names, section);
    line.put_train(names, train);
}

/// Puts the words of a train that has left.
#[inline]
fn put_out(line: &mut LineBuffer, names: &Names, train: TrainNo)
    requires { length line.old + 21 ≤ ROOM }
    ensures text { (plant : Plant) → HasNames plant names.now
        → (of : Line) → line.new ≡ line.old ++ behind (what_words plant of (Out train)) }
    ensures short { length line.new ≤ length line.old + 21 }
{
    line.put_word(b"out");
    line.put_train(names, train);
}

/// Puts a word of at most six letters and the number of a command.
#[inline]
fn put_command(line: &mut LineBuffer, word: &[u8], command: u16)
    requires long { length word.now ≤ 6 }
    requires room { length line.old + 28 ≤ ROOM }
    ensures text { line.new ≡ line.old ++ behind (word.now ∷ decimal command ∷ []) }
    ensures short { length line.new ≤ length line.old + 28 }
{
    line.put_word(word);
    line.put_number(u64::from(command));
}

/// Puts a space and a word of five or six letters, in pieces of which each is moved at once.
#[inline]
fn put_verb(line: &mut LineBuffer, word: &[u8])
    requires long { 5 ≤ length word.now }
    requires room { length line.old + length word.now + 1 ≤ ROOM }
    ensures { line.new ≡ line.old ++ 32 ∷ word.now }
{
    line.put(&[b' ', word[0], word[1], word[2]]);
    match word.len() {
        5 => line.put(&[word[3], word[4]]),
        6 => {
            line.put(&[word[3], word[4]]);
            line.put(&[word[5]]);
        }
        _ => line.put(&word[3..]),
    }
}

/// Puts the name of a train and the number of its move.
#[inline]
fn put_move(line: &mut LineBuffer, names: &Names, train: TrainNo, place: u16)
    requires { length line.old + 58 ≤ ROOM }
    ensures text { (plant : Plant) → HasNames plant names.now
        → line.new ≡ line.old ++ behind (train_word plant train ∷ decimal place ∷ []) }
    ensures short { length line.new ≤ length line.old + 58 }
{
    line.put_train(names, train);
    line.put_number(u64::from(place));
}

/// Puts a note.
#[inline]
fn put_note(line: &mut LineBuffer, note: Note)
    requires { length line.old + 9 ≤ ROOM }
    ensures text { line.new ≡ line.old ++ 32 ∷ note_word note }
    ensures short { length line.new ≤ length line.old + 9 }
{
    match note {
        Note::Pulled => put_verb(line, b"pulled"),
        Note::Appended => line.put_word(b"appended"),
        Note::Fresh => line.put_word(b"fresh"),
    }
}

/// Puts the words of a cause.
#[inline]
fn put_cause(line: &mut LineBuffer, names: &Names, cause: Cause)
    requires { length line.old + 43 ≤ ROOM }
    ensures text { (plant : Plant) → HasNames plant names.now → line.new ≡ line.old ++ behind (cause_words plant cause) }
    ensures short { length line.new ≤ length line.old + 43 }
{
    match cause {
        Cause::Stopped => line.put_word(b"stopped"),
        Cause::Closed { section } => {
            line.put_word(b"closed");
            line.put_section(names, section);
        }
        Cause::Blocked { section, holder } => {
            line.put_word(b"blocked");
            line.put_section(names, section);
            line.put_train(names, holder);
        }
        Cause::NoList => line.put_word(b"nolist"),
    }
}
