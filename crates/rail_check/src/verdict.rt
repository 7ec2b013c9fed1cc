//! The verdict on a history: lawful to its end, or the first wrong line and the law that it breaks.

/// What is answered to a history.
#[derive(Clone, Copy, Debug, PartialEq, Eq)]
pub enum Verdict {
    /// It is lawful to its end.
    Yes,
    /// The first line that may not follow the lines before it, counted from 1, and the law that it breaks, from 1 to
    /// 7. Where the end line is missing the line is one past the last.
    No { line: u32, law: u8 },
}
