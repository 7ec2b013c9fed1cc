//! What the laws of a history say, each in a line.

ghost use Rattle.std.specs.Prelude.{◌≤◌, length};

/// What the first wrong line of a history breaks, by the number of the law.
pub fn law_text(law: u8) -> &'static str
    ensures short { length result.now ≤ 140 }
{
    match law {
        1 => "law 1: the line is not the event line, command line or end line that is due",
        2 => "law 2: the train is not waiting for this move now, or the trains are held already",
        3 => "law 3: the train is stopped, or a section that it needs is closed",
        4 => "law 4: a section that the move needs is blocked",
        5 =>
            "law 5: the kept list does not bring every train inside to its exit after this admission",
        6 =>
            "law 6: the cause is not the true one, or a train that could go, or a hold line that is due, comes first",
        _ => "law 7: the end line is missing",
    }
}
