//! How a command ended, its exit status and its text.

ghost use Rattle.std.specs.Prelude.{◌≡◌, ◌+◌, ◌≤◌, ◌++◌, ◌∷◌, [], decimal, drop, length, take};
ghost use Rattle.rail_base.specs.Refusals.{number_of};
ghost use Rattle.rail_text.specs.declared.line_buffer.TheConstants.{ROOM};
ghost use Rattle.rail_forms.specs.Statuses.{exit_of, part_text, reason_text, refusal_text, status_text};

use rail_base::{Fault, OutOfMemory, Part, Reason, Refusal};
use rail_io::Failed;
use rail_text::LineBuffer;

/// How a command ended.
#[derive(Clone, Copy, Debug, PartialEq, Eq)]
pub enum Status {
    /// The command is done.
    Done,
    /// The words are not in the table of words.
    Usage,
    /// The input is refused.
    Refused(Refusal),
    /// A file was not read.
    ReadFault,
    /// The output was not written to its end.
    WriteFault,
    /// Memory was not found; nothing was written.
    OutOfMemory,
    /// The history is not lawful to its end: the first line that no lawful history has there, counted
    /// from 1, and the law that it breaks.
    CheckedNo { line: u32, law: u8 },
}

impl Status {
    /// The exit status of the program.
    pub fn exit(&self) -> u8
        ensures { result ≡ exit_of self.now }
    {
        match self {
            Status::Done => 0,
            Status::Usage => 1,
            Status::Refused(_) => 2,
            Status::ReadFault => 3,
            Status::WriteFault => 4,
            Status::OutOfMemory => 5,
            Status::CheckedNo { .. } => 6,
        }
    }

    /// Writes the status text at the front of `into`, and gives its length, which is 0 for `Done`.
    pub fn text(&self, into: &mut [u8; 64]) -> usize
        ensures text { take result into.new ≡ status_text self.now }
        ensures len { result ≡ length (status_text self.now) }
        ensures rest { drop result into.new ≡ drop result into.old }
    {
        let mut line = LineBuffer::new();
        put_status(&mut line, *self);
        let text = line.as_slice();
        into[..text.len()].copy_from_slice(text);
        text.len()
    }
}

impl From<Fault> for Status {
    ghost use Rattle.rail_forms.specs.Answers.{status_of};

    ghost from_gives = { λ fault end. end ≡ status_of fault };

    fn from(fault: Fault) -> Status {
        match fault {
            Fault::Refused(refusal) => Status::Refused(refusal),
            Fault::OutOfMemory => Status::OutOfMemory,
        }
    }
}

impl From<OutOfMemory> for Status {
    ghost use Rattle.rail_forms.specs.declared.status.Status.TheVariants as status;

    ghost from_gives = { λ _ end. end ≡ status.OutOfMemory };

    fn from(_: OutOfMemory) -> Status {
        Status::OutOfMemory
    }
}

impl From<Failed> for Status {
    ghost use Rattle.rail_forms.specs.declared.status.Status.TheVariants as status;

    ghost from_gives = { λ _ end. end ≡ status.WriteFault };

    fn from(_: Failed) -> Status {
        Status::WriteFault
    }
}

/// Puts the text of a status.
fn put_status(line: &mut LineBuffer, status: Status)
    requires { line.old ≡ [] }
    ensures text { line.new ≡ status_text status }
    ensures short { length line.new ≤ 64 }
{
    match status {
        Status::Done => {}
        Status::Usage => line.put(b"usage"),
        Status::Refused(refusal) => put_refusal(line, refusal),
        Status::ReadFault => line.put(b"read fault"),
        Status::WriteFault => line.put(b"write fault"),
        Status::OutOfMemory => line.put(b"out of memory"),
        Status::CheckedNo { line: number, law } => {
            line.put(b"checked no");
            put_number(line, number);
            put_number(line, u32::from(law));
        }
    }
}

/// Puts the text of a refusal.
fn put_refusal(line: &mut LineBuffer, refusal: Refusal)
    requires { line.old ≡ [] }
    ensures text { line.new ≡ refusal_text refusal }
    ensures short { length line.new ≤ 64 }
{
    line.put(b"refused");
    put_number(line, u32::from(refusal.reason.number()));
    line.put_word(reason_text(refusal.reason));
    line.put_word(part_text(refusal.part));
    put_number(line, refusal.item);
    put_number(line, refusal.step);
}

/// Puts a space and the number.
fn put_number(line: &mut LineBuffer, number: u32)
    requires { length line.old + 41 ≤ ROOM }
    ensures text { line.new ≡ line.old ++ 32 ∷ decimal number }
    ensures short { length line.new ≤ length line.old + 11 }
{
    line.put_number(u64::from(number));
}

/// The word for a reason.
fn reason_text(reason: Reason) -> &'static [u8]
    ensures text { result.now ≡ reason_text reason }
    ensures short { length result.now ≤ 15 }
{
    match reason {
        Reason::NotToml => b"NotToml",
        Reason::KeyMissing => b"KeyMissing",
        Reason::WrongKind => b"WrongKind",
        Reason::KeyUnknown => b"KeyUnknown",
        Reason::BadName => b"BadName",
        Reason::Repeated => b"Repeated",
        Reason::Unknown => b"Unknown",
        Reason::Range => b"Range",
        Reason::JointCrowded => b"JointCrowded",
        Reason::PostPlace => b"PostPlace",
        Reason::RouteBroken => b"RouteBroken",
        Reason::RouteRepeat => b"RouteRepeat",
        Reason::ItineraryBroken => b"ItineraryBroken",
        Reason::NotPortal => b"NotPortal",
        Reason::TooLong => b"TooLong",
        Reason::SelfBlocked => b"SelfBlocked",
        Reason::TooMany => b"TooMany",
        Reason::TimetableForm => b"TimetableForm",
        Reason::TimetableValue => b"TimetableValue",
        Reason::InUse => b"InUse",
        Reason::UnknownPolicy => b"UnknownPolicy",
        Reason::CommandForm => b"CommandForm",
        Reason::CommandName => b"CommandName",
        Reason::CommandOrder => b"CommandOrder",
        Reason::HistoryForm => b"HistoryForm",
        Reason::LineEmpty => b"LineEmpty",
        Reason::WindowEmpty => b"WindowEmpty",
        Reason::SnapshotForm => b"SnapshotForm",
        Reason::SnapshotOther => b"SnapshotOther",
        Reason::NoPath => b"NoPath",
        Reason::EditForm => b"EditForm",
        Reason::NothingToUndo => b"NothingToUndo",
        Reason::NothingToRedo => b"NothingToRedo",
        Reason::ListForm => b"ListForm",
        Reason::ListName => b"ListName",
        Reason::ListPlaces => b"ListPlaces",
        Reason::RerouteForm => b"RerouteForm",
        Reason::RerouteName => b"RerouteName",
    }
}

/// The word for a part of the input.
fn part_text(part: Part) -> &'static [u8]
    ensures text { result.now ≡ part_text part }
    ensures short { length result.now ≤ 7 }
{
    match part {
        Part::Bytes => b"bytes",
        Part::Root => b"root",
        Part::Section => b"section",
        Part::Portal => b"portal",
        Part::Signal => b"signal",
        Part::Board => b"board",
        Part::Turn => b"turn",
        Part::Route => b"route",
        Part::Kind => b"kind",
        Part::Train => b"train",
        Part::Row => b"row",
        Part::Line => b"line",
        Part::Word => b"word",
        Part::File => b"file",
    }
}
