//! The time at the front of a line.

ghost use Rattle.std.specs.Prelude.{◌≡◌, ℕ, ◌<◌, ◌^◌, Some};
ghost use Rattle.rail_base.specs.Clock.{time_text};

use rail_base::Time;
use rail_text::value_of;

/// The time whose canonical text this is. Any other text gives some time or none.
pub(crate) fn likely_time(text: &[u8]) -> Option<Time>
    ensures { (time : ℕ) → time < 2 ^ 64 → text.now ≡ time_text time → result ≡ Some time }
{
    let [hours @ .., _, m1, m0, _, s1, s0, _, tenth] = text else {
        return None;
    };
    // Minutes, seconds and tenths as one number of five digits.
    let digits = value_of(&[*m1, *m0, *s1, *s0, *tenth]);
    let clock = digits / 1_000 * 600 + digits % 1_000;
    let hours = value_of(hours);
    Some(Time(hours.saturating_mul(36_000).saturating_add(clock)))
}
