//! Which chains of the ring have an event.

ghost use Rattle.std.specs.Prelude.{◌≡◌, ℕ, ◌+◌, ◌%◌, ◌<◌, ◌≢◌, [], cond, length, get_or, IfSome, IfNone};
ghost use Rattle.rail_queue.specs.Marks.{AreBare, AreMarked, IsFirstMarked, mark_at, mark_of};

use crate::event::Event;
use crate::queue::RING;
use rail_slots::Slots;

/// How many words have a bit for each chain of the ring.
const WORDS: usize = RING / 64;

/// A mark for each chain of the ring that has an event, so that the next one is found without a look at the
/// chains between.
#[derive(Debug, Drop)]
pub(crate) struct Marks {
    /// A bit for each chain, the lowest bit of a word for the first of its 64 chains.
    words: [u64; WORDS],
}

impl Marks {
    /// No chain is marked.
    pub(crate) fn new() -> Marks
        ensures { (chain : ℕ) → mark_at result.words chain ≡ 0 }
    {
        Marks { words: [0; WORDS] }
    }

    /// Marks the chain, or takes its mark away, where it is one of the ring.
    fn set(&mut self, chain: usize, marked: bool)
        ensures here { chain < 1024 → mark_at self.new.words chain ≡ cond marked 1 0 }
        ensures others { (other : ℕ) → other ≢ chain → mark_at self.new.words other ≡ mark_at self.old.words other }
    {
        if chain >= RING {
            return;
        }
        let bit = 1 << (chain % 64);
        if marked {
            self.words[chain / 64] |= bit;
        } else {
            self.words[chain / 64] &= !bit;
        }
    }

    /// Marks the chain where it is one of the ring.
    pub(crate) fn mark(&mut self, chain: usize)
        ensures here { chain < 1024 → mark_at self.new.words chain ≡ 1 }
        ensures others { (other : ℕ) → other ≢ chain → mark_at self.new.words other ≡ mark_at self.old.words other }
    {
        self.set(chain, true);
    }

    /// Marks the chain where it is one of the ring and has an event, and else takes its mark away.
    pub(crate) fn note(&mut self, slots: &Slots<Event>, chain: usize)
        requires { chain < length slots.now.chains }
        ensures here { chain < 1024 → mark_at self.new.words chain ≡ mark_of (get_or slots.now.chains chain []) }
        ensures others { (other : ℕ) → other ≢ chain → mark_at self.new.words other ≡ mark_at self.old.words other }
    {
        self.set(chain, slots.first(chain).is_some());
    }

    /// Marks those chains of the ring that have an event, and no others.
    pub(crate) fn note_all(&mut self, slots: &Slots<Event>)
        requires { 1024 < length slots.now.chains }
        ensures { AreMarked self.new.words slots.now.chains 1024 }
    {
        for chain in 0..RING {
            self.note(slots, chain);
        }
    }

    /// The first marked chain from this one on, around the ring. It reads no more than 17 words.
    #[inline(always)]
    pub(crate) fn first_from(&self, start: usize) -> Option<usize>
        requires { start < 1024 }
        ensures some { IfSome result (λ chain. IsFirstMarked self.now.words start chain) }
        ensures none { IfNone result (AreBare self.now.words start 1024) }
    {
        let (word, place) = (start / 64, start % 64);
        let rest = self.words[word] >> place;
        if rest != 0 {
            return Some(start + rest.trailing_zeros() as usize);
        }
        for step in 1..WORDS + 1 {
            let at = (word + step) % WORDS;
            let bits = self.words[at];
            if bits != 0 {
                return Some(at * 64 + bits.trailing_zeros() as usize);
            }
        }
        None
    }
}
