//! The lines of a file that are not skipped, one after the other.

ghost use Rattle.std.specs.Prelude.{◌≡◌, ◌-◌, ◌^◌, ◌<◌, length};
ghost use Rattle.rail_text.specs.Lines.{lines_of};

use crate::lines::{is_skipped, next_line};
use std::marker::Model;

/// A line that is not skipped.
#[derive(Clone, Copy)]
pub struct NumberedLine<'a> {
    /// Its number among all lines, counted from 1.
    pub number: u32,
    pub line: &'a [u8],
}

/// The lines of a file that are not skipped, which contracts see as the list of those that are left.
#[derive(Drop)]
pub struct NumberedLines<'a> {
    text: &'a [u8],
    /// How many lines stand before the text, skipped ones too.
    passed: u32,
}

impl<'a> Model for NumberedLines<'a> {
    ghost use Rattle.std.specs.Prelude.{List, ◌+◌, ◌-◌, ◌^◌, ◌<◌, length};
    ghost use Rattle.std.specs.Str.Lines.{lines};
    ghost use Rattle.rail_text.specs.Lines.{Line, lines_from};

    ghost Value = { List Line };

    ghost view = { λ left. lines_from (left.passed + 1) (lines left.text.now) };

    ghost invariant = { λ left. left.passed + length left.text.now < 2 ^ 32 - 1 };
}

/// The lines of the text that are not skipped.
pub fn numbered_lines(text: &[u8]) -> NumberedLines<'_>
    requires { length text.now < 2 ^ 32 - 1 }
    ensures { result ≡ lines_of text.now }
{
    NumberedLines { text, passed: 0 }
}

impl<'a> Iterator for NumberedLines<'a> {
    ghost use Rattle.std.specs.Iterator.{YieldsFirstBy, item_count};
    ghost use Rattle.rail_text.specs.Lines.{line_at};

    type Item = NumberedLine<'a>;

    ghost next_gives = { YieldsFirstBy (λ item. line_at item.number item.line.now) (λ left. left) };

    ghost remaining = { item_count (λ left. left) };

    fn next(&mut self) -> Option<NumberedLine<'a>> {
        while let Some((line, rest)) = next_line(self.text) {
            self.text = rest;
            self.passed += 1;
            if !is_skipped(line) {
                return Some(NumberedLine {
                    number: self.passed,
                    line,
                });
            }
        }
        None
    }
}
