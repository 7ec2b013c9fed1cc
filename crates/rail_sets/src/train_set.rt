//! Sets of trains, 64 in a word: train 0 is the lowest bit of the first word.

ghost use Rattle.std.specs.Prelude.{◌≡◌, ◌<◌, ◌≤◌, ◌==◌, ◌&&◌, ◌||◌, ℕ, not, true, false, cond, IfSome, IsNone, MatchOption};
ghost use Rattle.std.specs.Int.{bit_at};
ghost use Rattle.rail_base.specs.declared.limits.TheConstants.{TRAINS};
ghost use Rattle.rail_sets.specs.TrainSets.{has_train, size_of};

use rail_base::TrainNo;
use rail_base::limits::TRAINS;

/// The words of a set, of 64 trains each.
const WORDS: usize = TRAINS / 64;

/// Trains by number.
#[derive(Clone, Copy, Debug)]
pub struct TrainSet {
    words: [u64; WORDS],
}

impl TrainSet {
    /// No train.
    pub fn none() -> TrainSet
        ensures { (t : ℕ) → has_train result t ≡ false }
    {
        TrainSet { words: [0; WORDS] }
    }

    /// Whether the train is in the set.
    pub fn has(&self, train: TrainNo) -> bool
        requires { train < TRAINS }
        ensures { result ≡ has_train self.now train }
    {
        self.words[usize::from(train.0 / 64)] >> (train.0 % 64) & 1 == 1
    }

    /// Puts the train in.
    pub fn insert(&mut self, train: TrainNo)
        requires { train < TRAINS }
        ensures { (t : ℕ) → has_train self.new t ≡ (t == train || has_train self.old t) }
    {
        self.words[usize::from(train.0 / 64)] |= 1u64 << (train.0 % 64);
    }

    /// Takes the train out.
    pub fn remove(&mut self, train: TrainNo)
        requires { train < TRAINS }
        ensures left { (t : ℕ) → has_train self.new t ≡ (not (t == train) && has_train self.old t) }
        ensures fewer { has_train self.old train ≡ true → size_of self.new < size_of self.old }
    {
        self.words[usize::from(train.0 / 64)] &= !(1u64 << (train.0 % 64));
    }

    /// Puts the train in or takes it out.
    pub fn put(&mut self, train: TrainNo, is_in: bool)
        requires { train < TRAINS }
        ensures { (t : ℕ) → has_train self.new t ≡ cond (t == train) is_in (has_train self.old t) }
    {
        if is_in {
            self.insert(train);
        } else {
            self.remove(train);
        }
    }

    /// The first train from this number on, where there is one.
    pub fn first_from(&self, number: u16) -> Option<TrainNo>
        ensures { MatchOption result ((t : ℕ) → number ≤ t → has_train self.now t ≡ false)
            (λ train. (number ≤ train) × (train < TRAINS) × (has_train self.now train ≡ true)
            × ((t : ℕ) → number ≤ t → t < train → has_train self.now t ≡ false)) }
    {
        let begin = usize::from(number / 64);
        for index in begin..WORDS {
            let bit = if index == begin { number % 64 } else { 0 };
            if let Some(found) = first_bit(self.words[index], bit) {
                return Some(TrainNo(index as u16 * 64 + found));
            }
        }
        None
    }

    /// Takes the first train out, where there is one.
    pub fn take_first(&mut self) -> Option<TrainNo>
        ensures none { IsNone result → (t : ℕ) → has_train self.old t ≡ false }
        ensures known { IfSome result (λ train. train < TRAINS) }
        ensures was { IfSome result (λ train. has_train self.old train ≡ true) }
        ensures left { IfSome result (λ train. (t : ℕ) → has_train self.new t ≡ (not (t == train) && has_train self.old t)) }
        ensures fewer { IfSome result (λ train. size_of self.new < size_of self.old) }
    {
        let train = self.first_from(0)?;
        self.remove(train);
        Some(train)
    }
}

/// The first bit of the word that is 1, from this one on.
fn first_bit(word: u64, bit: u16) -> Option<u16>
    requires { bit < 64 }
    ensures { MatchOption result ((i : ℕ) → bit ≤ i → bit_at word i ≡ 0)
        (λ found. (bit ≤ found) × (found < 64) × (bit_at word found ≡ 1) × ((i : ℕ) → bit ≤ i → i < found → bit_at word i ≡ 0)) }
{
    let high = word >> bit;
    if high == 0 {
        return None;
    }
    Some(bit + high.trailing_zeros() as u16)
}
