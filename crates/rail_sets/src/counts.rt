//! How often each section is counted.

ghost use Rattle.std.specs.Prelude.{◌≡◌, ℕ, ◌+◌, ◌*◌, ◌^◌, ◌<◌, ◌≤◌, ◌&&◌, ◌||◌, ◌==◌, not, nat_le, false, length, get_or, IfOk, IsTrue};
ghost use Rattle.std.specs.Int.{bit_at};
ghost use Rattle.rail_sets.specs.Sets.{has};
ghost use Rattle.rail_base.specs.declared.limits.TheConstants.{TRAINS};
ghost use Rattle.rail_sets.specs.declared.counts.TheConstants.{DIGITS};
ghost use Rattle.rail_sets.specs.declared.sets.TheConstants.{WORDS};
ghost use Rattle.rail_sets.specs.Counts.{column, count_of, one_if};

use crate::sets::WORDS;
use rail_base::OutOfMemory;
use rail_base::limits::TRAINS;
use std::alloc::Global;
use std::marker::Model;

/// The digits of a count, in base 2: enough for each train, and one more.
const DIGITS: usize = 9;

const _: () = prove!(TRAINS + 1 < 1 << DIGITS);

/// How often each of 64 sections is counted. A word has one digit of all these counts, so that
/// a set of sections is counted as a whole.
#[derive(Debug, Drop)]
struct Column {
    digits: [u64; DIGITS],
    /// The sections that are counted more than once.
    many: u64,
    /// The sections that are counted twice.
    twice: u64,
}

impl Model for Column {
    ghost use Rattle.std.specs.Prelude.{◌≡◌, ℕ, ◌<◌, ◌==◌, nat_le, List};
    ghost use Rattle.std.specs.Int.{bit_at};
    ghost use Rattle.rail_sets.specs.Counts.{column};

    ghost Value = { List ℕ };

    ghost view = { λ counts. counts.digits };

    ghost invariant = { λ counts. ((bit : ℕ) → bit < 64 → (bit_at counts.many bit == 1) ≡ nat_le 2 (column counts.digits bit))
        × ((bit : ℕ) → bit < 64 → (bit_at counts.twice bit == 1) ≡ (column counts.digits bit == 2)) };
}

impl Column {
    /// None of the sections is counted.
    fn none() -> Column
        ensures { (bit : ℕ) → bit < 64 → column result bit ≡ 0 }
    {
        Column {
            digits: [0; DIGITS],
            many: 0,
            twice: 0,
        }
    }

    /// Takes over the other counts.
    fn copy_from(&mut self, other: &Column)
        ensures { self.new ≡ other.now }
    {
        self.digits = other.digits;
        self.many = other.many;
        self.twice = other.twice;
    }

    /// Counts the sections once more whose bits are set.
    fn count_up(&mut self, more: u64)
        requires { (bit : ℕ) → bit < 64 → column self.old bit + bit_at more bit < 2 ^ DIGITS }
        ensures { (bit : ℕ) → bit < 64 → column self.new bit ≡ column self.old bit + bit_at more bit }
    {
        carry(&mut self.digits, more);
        note(&self.digits, &mut self.many, &mut self.twice);
    }

    /// Counts the sections once less whose bits are set.
    fn count_down(&mut self, less: u64)
        requires { (bit : ℕ) → bit < 64 → bit_at less bit ≤ column self.old bit }
        ensures { (bit : ℕ) → bit < 64 → column self.new bit + bit_at less bit ≡ column self.old bit }
    {
        borrow(&mut self.digits, less);
        note(&self.digits, &mut self.many, &mut self.twice);
    }

    /// The sections that are counted more than once.
    fn many(&self) -> u64
        ensures { (bit : ℕ) → bit < 64 → (bit_at result bit == 1) ≡ nat_le 2 (column self.now bit) }
    {
        self.many
    }

    /// The sections that are counted twice.
    fn twice(&self) -> u64
        ensures { (bit : ℕ) → bit < 64 → (bit_at result bit == 1) ≡ (column self.now bit == 2) }
    {
        self.twice
    }
}

/// How often each section is counted: for each train at most, and once more.
#[derive(Debug, Drop)]
pub struct Counts {
    columns: Vec<Column>,
}

impl Model for Counts {
    ghost use Rattle.std.specs.Prelude.{◌≡◌, length, vec_capacity};
    ghost use Rattle.rail_sets.specs.Counts.{Columns};
    ghost use Rattle.rail_sets.specs.declared.sets.TheConstants.{WORDS};

    ghost Value = { Columns };

    ghost view = { λ counts. counts.columns.items };

    ghost invariant = { λ counts. (length counts.columns.items ≡ WORDS) × (vec_capacity counts.columns ≡ WORDS) };
}

impl Counts {
    /// No section is counted.
    pub fn new(alloc: Global) -> Result<Counts, OutOfMemory>
        ensures { IfOk result (λ counts. (x : ℕ) → count_of counts x ≡ 0) }
    {
        let mut columns = Vec::with_capacity(alloc, WORDS)?;
        for _column in 0..WORDS {
            columns.push_reserved(Column::none());
        }
        Ok(Counts { columns })
    }

    /// Takes over the other counts.
    pub fn copy_from(&mut self, other: &Counts)
        ensures { self.new ≡ other.now }
    {
        for index in 0..WORDS {
            self.columns[index].copy_from(&other.columns[index]);
        }
    }

    /// Takes over the counts of the sections of so many words from the other counts.
    pub fn copy_front(&mut self, other: &Counts, words: usize)
        requires { words ≤ WORDS }
        ensures front { (x : ℕ) → x < 64 * words → count_of self.new x ≡ count_of other.now x }
        ensures rest { (x : ℕ) → 64 * words ≤ x → count_of self.new x ≡ count_of self.old x }
    {
        for index in 0..words {
            self.columns[index].copy_from(&other.columns[index]);
        }
    }

    /// Counts each section once more that is in the one set, and not in the other.
    pub fn count_up(&mut self, set: &[u64], other: &[u64])
        requires set { length set.now ≤ WORDS }
        requires other { length other.now ≡ length set.now }
        requires few { (x : ℕ) → IsTrue (has set.now x && not (has other.now x)) → count_of self.old x ≤ TRAINS }
        ensures { (x : ℕ) → count_of self.new x ≡ count_of self.old x + one_if (has set.now x && not (has other.now x)) }
    {
        for (index, word) in set.iter().enumerate() {
            let more = *word & !other[index];
            if more != 0 {
                self.columns[index].count_up(more);
            }
        }
    }

    /// Counts each section once less that is in the one set, and not in the other. All these are counted.
    pub fn count_down(&mut self, set: &[u64], other: &[u64])
        requires set { length set.now ≤ WORDS }
        requires other { length other.now ≡ length set.now }
        requires some { (x : ℕ) → IsTrue (has set.now x && not (has other.now x)) → 0 < count_of self.old x }
        ensures { (x : ℕ) → count_of self.new x + one_if (has set.now x && not (has other.now x)) ≡ count_of self.old x }
    {
        for (index, word) in set.iter().enumerate() {
            let less = *word & !other[index];
            if less != 0 {
                self.columns[index].count_down(less);
            }
        }
    }

    /// No section of the set is counted more than once.
    pub fn are_once(&self, set: &[u64]) -> bool
        requires { length set.now ≤ WORDS }
        ensures once { IsTrue result → (x : ℕ) → IsTrue (has set.now x) → count_of self.now x ≤ 1 }
        ensures more { result ≡ false → (x : ℕ) × IsTrue (has set.now x) × (1 < count_of self.now x) }
    {
        for (index, word) in set.iter().enumerate() {
            if *word & self.columns[index].many() != 0 {
                return false;
            }
        }
        true
    }

    /// A section is counted twice, and is in the one set and not in the other.
    pub fn has_falls(&self, from: &[u64], to: &[u64]) -> bool
        requires from { length from.now ≤ WORDS }
        requires to { length to.now ≡ length from.now }
        ensures { result ≡ false → (x : ℕ) → (has from.now x && not (has to.now x) && (count_of self.now x == 2)) ≡ false }
    {
        for (index, word) in from.iter().enumerate() {
            if *word & !to[index] & self.columns[index].twice() != 0 {
                return true;
            }
        }
        false
    }

    /// A section of the set is counted twice.
    pub fn has_pairs(&self, set: &[u64]) -> bool
        requires { length set.now ≤ WORDS }
        ensures { result ≡ false → (x : ℕ) → (has set.now x && (count_of self.now x == 2)) ≡ false }
    {
        for (index, word) in set.iter().enumerate() {
            if *word & self.columns[index].twice() != 0 {
                return true;
            }
        }
        false
    }

    /// Adds to the set the sections that are counted twice and are in the one set and not in the other: those that
    /// are counted once where what is in the one set alone is counted once less.
    pub fn add_falls(&self, set: &mut [u64], from: &[u64], to: &[u64])
        requires from { length from.now ≤ WORDS }
        requires to { length to.now ≡ length from.now }
        requires set { length from.now ≤ length set.old }
        ensures set { (x : ℕ)
            → has set.new x ≡ (has set.old x || (has from.now x && not (has to.now x) && (count_of self.now x == 2))) }
        ensures long { length set.new ≡ length set.old }
    {
        for (index, word) in from.iter().enumerate() {
            set[index] |= *word & !to[index] & self.columns[index].twice();
        }
    }

    /// Fills the words of two sets, as many as the set `from` has: one with the sections that are counted twice and are in
    /// `from` and not in `to`, the other with all others that are counted more than once. Whether the first one has any.
    pub fn fill_falls(&self, fell: &mut [u64], shared: &mut [u64], from: &[u64], to: &[u64]) -> bool
        requires from { length from.now ≤ WORDS }
        requires to { length to.now ≡ length from.now }
        requires fell { length from.now ≤ length fell.old }
        requires shared { length from.now ≤ length shared.old }
        ensures fell { (x : ℕ) → x < 64 * length from.now
            → has fell.new x ≡ (has from.now x && not (has to.now x) && (count_of self.now x == 2)) }
        ensures shared { (x : ℕ) → x < 64 * length from.now
            → has shared.new x ≡ (nat_le 2 (count_of self.now x) && not (has fell.new x)) }
        ensures none { result ≡ false → (x : ℕ) → x < 64 * length from.now → has fell.new x ≡ false }
        ensures long_fell { length fell.new ≡ length fell.old }
        ensures long_shared { length shared.new ≡ length shared.old }
    {
        let mut any = false;
        for (index, word) in from.iter().enumerate() {
            let column = &self.columns[index];
            let falls = *word & !to[index] & column.twice();
            fell[index] = falls;
            shared[index] = column.many() & !falls;
            any |= falls != 0;
        }
        any
    }
}

/// Adds 1 to the counts of the sections whose bits are set.
fn carry(digits: &mut [u64; DIGITS], more: u64)
    requires { (bit : ℕ) → bit < 64 → column digits.old bit + bit_at more bit < 2 ^ DIGITS }
    ensures { (bit : ℕ) → bit < 64 → column digits.new bit ≡ column digits.old bit + bit_at more bit }
{
    let mut carried = more;
    for digit in digits {
        if carried == 0 {
            return;
        }
        let next = *digit & carried;
        *digit ^= carried;
        carried = next;
    }
}

/// Takes 1 off the counts of the sections whose bits are set.
fn borrow(digits: &mut [u64; DIGITS], less: u64)
    requires { (bit : ℕ) → bit < 64 → bit_at less bit ≤ column digits.old bit }
    ensures { (bit : ℕ) → bit < 64 → column digits.new bit + bit_at less bit ≡ column digits.old bit }
{
    let mut borrowed = less;
    for digit in digits {
        if borrowed == 0 {
            return;
        }
        let next = !*digit & borrowed;
        *digit ^= borrowed;
        borrowed = next;
    }
}

/// Notes which sections are counted more than once, and which twice.
fn note(digits: &[u64; DIGITS], many: &mut u64, twice: &mut u64)
    ensures many { (bit : ℕ) → bit < 64 → (bit_at many.new bit == 1) ≡ nat_le 2 (column digits.now bit) }
    ensures twice { (bit : ℕ) → bit < 64 → (bit_at twice.new bit == 1) ≡ (column digits.now bit == 2) }
{
    let mut high = 0;
    for digit in &digits[2..] {
        high |= *digit;
    }
    *many = digits[1] | high;
    *twice = digits[1] & !digits[0] & !high;
}
