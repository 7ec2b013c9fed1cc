//! Times and the numbers of sections and trains, and a division that rounds up.

ghost use Rattle.std.specs.Prelude.{◌≡◌, ℕ, ◌+◌, ◌*◌, ◌<◌, ◌≤◌, ◌^◌};

use std::marker::Model;

/// An instant or a duration in whole tenths of a second, counted from 00:00:00.0 of the first day.
#[derive(Clone, Copy, Debug, PartialEq, Eq, PartialOrd, Ord, Hash)]
pub struct Time(pub u64);

impl Model for Time {
    ghost use Rattle.std.specs.Prelude.{ℕ};

    ghost Value = { ℕ };

    ghost view = { λ time. time.0 };

    ghost inverse = { λ n. record { 0 = n } };
}

/// The number of a track section, counted from 0 in the order of the scene.
#[derive(Clone, Copy, Debug, PartialEq, Eq, PartialOrd, Ord, Hash)]
pub struct SectionNo(pub u16);

impl Model for SectionNo {
    ghost use Rattle.std.specs.Prelude.{ℕ};

    ghost Value = { ℕ };

    ghost view = { λ section. section.0 };

    ghost inverse = { λ n. record { 0 = n } };
}

/// The number of a train, counted from 0 in the order of the scene.
#[derive(Clone, Copy, Debug, PartialEq, Eq, PartialOrd, Ord, Hash)]
pub struct TrainNo(pub u16);

impl Model for TrainNo {
    ghost use Rattle.std.specs.Prelude.{ℕ};

    ghost Value = { ℕ };

    ghost view = { λ train. train.0 };

    ghost inverse = { λ n. record { 0 = n } };
}

/// `a / b`, rounded up to a whole number.
pub fn ceil_div(a: u64, b: u64) -> u64
    requires divisor { 1 ≤ b }
    requires fits { a + b < 2 ^ 64 }
    ensures enough { a ≤ result * b }
    ensures least { result * b < a + b }
{
    a.div_ceil(b)
}
