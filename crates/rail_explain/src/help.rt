//! What the program prints of itself: the forms of a command line, as they are typed and what each prints.

ghost use Rattle.std.specs.Prelude.{◌+◌, ◌≤◌, length};
ghost use Rattle.rail_text.specs.declared.line_buffer.TheConstants.{ROOM};

use rail_command_line::Form;
use rail_text::LineBuffer;

/// What stands before the lines of the forms in the answer to `rail --help`.
pub const HELP_BEFORE: &str = "\
rail simulates the operation of railway lines and stations; that it keeps its rules is proved.

";

/// What stands behind them.
pub const HELP_BEHIND: &str = "    rail --help                              this text
    rail --version                           the version

SCENE is a TOML file, TIMETABLE a CSV file; COMMANDS, LIST, PROPOSALS, HISTORY, SNAPSHOT and EDITS are files of lines. A
`-` for TIMETABLE or COMMANDS stands for no file. LINE has names of sections with commas between them, TRAIN is the name of
a train; FROM and TO are times, COUNT is a number, for `insert` from 1 to 128. The policies are `priority`, `timetable`,
`fcfs` and `rotating`; a scene that names none is run by `fcfs`.

Exit status: 0 done, 1 words not in the table, 2 input refused, 3 read fault, 4 write fault, 5 out of
memory, 6 a history that is not lawful to its end, 7 words that are no text. The status text is the last line on
standard error.
";

/// The answer to `rail --version`.
pub const VERSION: &str = "rail 0.20.3\n";

/// The forms that print a text of the program's own.
pub const OTHER_FORMS: &str = "rail --help\nrail --version";

/// The bytes before the sentence of a form.
const MARGIN: &[u8] = b"                                             ";

/// A form as it is typed.
pub fn usage(form: Form) -> LineBuffer
    ensures short { length result ≤ 80 }
{
    let mut line = LineBuffer::new();
    put_usage(&mut line, form);
    line
}

/// A form as it is typed, with what is to be known of its words.
pub fn usage_with_hint(form: Form) -> LineBuffer
    ensures short { length result ≤ 150 }
{
    let mut line = usage(form);
    line.put(form.hint().as_bytes());
    line
}

/// The line of a form in the answer to `rail --help`: how it is typed and what it prints; two lines where it is long.
pub fn help_line(form: Form) -> LineBuffer
    ensures short { length result ≤ 250 }
{
    let mut line = LineBuffer::new();
    line.put(b"    ");
    put_usage(&mut line, form);
    let used = line.as_slice().len();
    let margin = MARGIN;
    if used < margin.len() {
        line.put(&margin[used..]);
    } else {
        line.put(b"\n");
        line.put(margin);
    }
    line.put(form.sentence().as_bytes());
    line.put(b"\n");
    line
}

/// Puts the form as it is typed.
fn put_usage(line: &mut LineBuffer, form: Form)
    requires { length line.old + 80 ≤ ROOM }
    ensures short { length line.new ≤ length line.old + 80 }
{
    line.put(b"rail");
    line.put_word(form.verb().as_bytes());
    line.put_word(form.words().as_bytes());
}
