//! Sets of sections, 64 in a word: section 0 is the lowest bit of the first word.

ghost use Rattle.std.specs.Prelude.{◌≡◌, ℕ, ◌<◌, ◌≤◌, ◌*◌, ◌==◌, ◌&&◌, ◌||◌, not, false, length, get_or, IsTrue, MatchOption};
ghost use Rattle.rail_rules.specs.Numbers.{is_in};
ghost use Rattle.rail_sets.specs.Sets.{has};

use rail_base::SectionNo;
use rail_base::limits::SECTIONS;

/// The words of a set that may have any section.
pub const WORDS: usize = SECTIONS / 64;

/// No section is in the set.
pub fn is_empty(set: &[u64]) -> bool
    ensures some { result ≡ false → (x : ℕ) × IsTrue (has set.now x) }
    ensures none { IsTrue result → (x : ℕ) → has set.now x ≡ false }
{
    for word in set {
        if *word != 0 {
            return false;
        }
    }
    true
}

/// Some section is in both sets.
pub fn meet(first: &[u64], second: &[u64]) -> bool
    requires { length first.now ≤ length second.now }
    ensures some { IsTrue result → (x : ℕ) × IsTrue (has first.now x) × IsTrue (has second.now x) }
    ensures none { result ≡ false → (x : ℕ) → IsTrue (has first.now x) → has second.now x ≡ false }
{
    for (index, word) in first.iter().enumerate() {
        if *word & second[index] != 0 {
            return true;
        }
    }
    false
}

/// Some section is in both sets, and not in a third one.
pub fn meet_beyond(first: &[u64], second: &[u64], third: &[u64]) -> bool
    requires second { length first.now ≤ length second.now }
    requires third { length first.now ≤ length third.now }
    ensures some { IsTrue result → (x : ℕ) × IsTrue (has first.now x) × IsTrue (has second.now x) × (has third.now x ≡ false) }
    ensures none { result ≡ false → (x : ℕ) → IsTrue (has first.now x) → IsTrue (has second.now x) → IsTrue (has third.now x) }
{
    for (index, word) in first.iter().enumerate() {
        if *word & second[index] & !third[index] != 0 {
            return true;
        }
    }
    false
}

/// The first section that is in both sets, and not in a third one.
pub fn first_common(first: &[u64], second: &[u64], third: &[u64]) -> Option<SectionNo>
    requires second { length first.now ≤ length second.now }
    requires third { length first.now ≤ length third.now }
    requires few { length first.now ≤ 1024 }
    ensures { MatchOption result
        ((x : ℕ) → IsTrue (has first.now x) → IsTrue (has second.now x) → IsTrue (has third.now x))
        (λ x. IsTrue (has first.now x) × IsTrue (has second.now x) × (has third.now x ≡ false)) }
{
    for (index, word) in first.iter().enumerate() {
        let common = *word & second[index] & !third[index];
        if common != 0 {
            return Some(SectionNo(index as u16 * 64 + common.trailing_zeros() as u16));
        }
    }
    None
}

/// Takes all sections away.
pub fn clear(set: &mut [u64])
    ensures none { (x : ℕ) → has set.new x ≡ false }
    ensures long { length set.new ≡ length set.old }
{
    set.fill(0);
}

/// Adds the sections of the other set.
pub fn join(set: &mut [u64], other: &[u64])
    requires { length other.now ≤ length set.old }
    ensures set { (x : ℕ) → has set.new x ≡ (has set.old x || has other.now x) }
    ensures long { length set.new ≡ length set.old }
{
    for (index, word) in other.iter().enumerate() {
        set[index] |= *word;
    }
}

/// Takes the sections of the one set away, and then adds those of the other.
pub fn replace(set: &mut [u64], gone: &[u64], come: &[u64])
    requires gone { length gone.now ≤ length set.old }
    requires come { length come.now ≡ length gone.now }
    ensures set { (x : ℕ) → has set.new x ≡ ((has set.old x && not (has gone.now x)) || has come.now x) }
    ensures long { length set.new ≡ length set.old }
{
    for (index, word) in gone.iter().enumerate() {
        set[index] = set[index] & !*word | come[index];
    }
}

/// Fills the words of the set, as many as the sections that come have, with those of another set, of which some go and some
/// come.
pub fn fill_replaced(set: &mut [u64], other: &[u64], gone: &[u64], come: &[u64])
    requires gone { length gone.now ≡ length come.now }
    requires other { length come.now ≤ length other.now }
    requires set { length come.now ≤ length set.old }
    ensures set { (x : ℕ) → x < 64 * length come.now
        → has set.new x ≡ ((has other.now x && not (has gone.now x)) || has come.now x) }
    ensures long { length set.new ≡ length set.old }
{
    for (index, word) in come.iter().enumerate() {
        set[index] = other[index] & !gone[index] | *word;
    }
}

/// Adds the sections to the set.
pub fn add_all(set: &mut [u64], sections: &[SectionNo])
    requires { (x : ℕ) → IsTrue (is_in x sections.now) → x < 64 * length set.old }
    ensures set { (x : ℕ) → x < 64 * length set.old → has set.new x ≡ (has set.old x || is_in x sections.now) }
    ensures long { length set.new ≡ length set.old }
{
    for section in sections {
        add(set, *section);
    }
}

/// Adds the section to the set.
fn add(set: &mut [u64], section: SectionNo)
    requires { section < 64 * length set.old }
    ensures set { (x : ℕ) → x < 64 * length set.old → has set.new x ≡ (has set.old x || x == section) }
    ensures long { length set.new ≡ length set.old }
{
    set[usize::from(section.0 / 64)] |= 1u64 << (section.0 % 64);
}

/// How many words from the first one on have all sections of the set.
pub fn width_of(set: &[u64]) -> usize
    ensures all { (x : ℕ) → IsTrue (has set.now x) → x < 64 * result }
    ensures few { result ≤ length set.now }
{
    let mut width = 0;
    for (index, word) in set.iter().enumerate() {
        if *word != 0 {
            width = index + 1;
        }
    }
    width
}
