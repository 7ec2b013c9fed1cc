//! Chains of slots, each slot with an item, in one room.

ghost use Rattle.std.specs.Prelude.{◌≡◌, ℕ, ◌+◌, ◌^◌, ◌-◌, ◌<◌, ◌≤◌, min, List, [], ◌∷◌, ◌++◌, get_or, set, replicate, length, IfOk, IfSome, MatchOption, Some, None, vec_capacity, vec_len};
ghost use Rattle.rail_slots.specs.Slots.{Stands, StandsAt, first_slot, first_item, behind_first, left_from, places};
ghost use Rattle.rail_slots.specs.Links.{HasSlot, IsNewSlot};

use crate::links::{Link, free_behind, put_behind, take_behind};
use rail_base::{OutOfMemory, copies};
use std::alloc::Global;
use std::marker::Model;

/// Chains of slots in one room. Chains count from 0; a slot's number means nothing but the slot.
#[derive(Debug, Drop)]
pub struct Slots<T> {
    /// The cell behind each cell. Cell 0 stands before the free slots, cell 1 before the first chain and so on; the
    /// other cells are the slots. A slot gets its cell when it is first used, so a room that is hardly used costs
    /// little; memory is reserved for all.
    next: Vec<Link>,
    /// The item of each slot in use, by its cell.
    items: Vec<Option<T>>,
    chains: usize,
    spare: usize,
    walked: u64,
}

impl<T> Model for Slots<T> {
    ghost use Rattle.rail_slots.specs.Slots.{Room, room_code};

    ghost Value = { Room T };

    ghost coded = { room_code T.code };

    ghost use Rattle.rail_slots.specs.Links.{lists_of, held, IsReserved};
    ghost use Rattle.std.specs.Prelude.{map, vec_capacity};

    ghost view = { λ slots. record { chains = map (held slots.items.items) (lists_of slots.next.items 1 slots.chains); spare = slots.spare; walked = slots.walked; room = vec_capacity slots.next } };

    ghost invariant = { λ slots. IsReserved slots.next.items slots.items.items slots.chains slots.spare
        (vec_capacity slots.next) (vec_capacity slots.items) };
}

/// Puts an item into a slot that was never used. The slot stands in no chain then.
#[inline(never)]
fn new_cell<T: Copy>(next: &mut Vec<Link>, items: &mut Vec<Option<T>>, item: T) -> usize
    requires next { vec_len next.old < vec_capacity next.old }
    requires items { vec_len items.old < vec_capacity items.old }
    ensures made { IsNewSlot None next.old.items items.old.items item next.new.items items.new.items result }
    ensures room { vec_capacity next.new ≡ vec_capacity next.old }
    ensures room_items { vec_capacity items.new ≡ vec_capacity items.old }
{
    let slot = next.len();
    next.push_reserved(Link::none());
    items.push_reserved(Some(item));
    slot
}

/// Puts an item into the first free slot, or else into one that was never used. The slot stands in no chain then.
fn new_slot<T: Copy>(next: &mut Vec<Link>, items: &mut Vec<Option<T>>, item: T) -> usize
    requires { HasSlot next.old.items items.old.items (vec_capacity next.old) (vec_capacity items.old) }
    ensures made { IsNewSlot (get_or next.old.items 0 None) next.old.items items.old.items item next.new.items items.new.items result }
    ensures room { vec_capacity next.new ≡ vec_capacity next.old }
    ensures room_items { vec_capacity items.new ≡ vec_capacity items.old }
{
    let Some(slot) = next[0].cell() else {
        return new_cell(next, items, item);
    };
    take_behind(next, 0, slot);
    items[slot] = Some(item);
    slot
}

/// So many steps and one more; it stays at 2^64 - 1 once there.
fn counted(walked: u64) -> u64
    ensures { result ≡ min (walked + 1) (2 ^ 64 - 1) }
{
    walked.saturating_add(1)
}

impl<T: Copy> Slots<T> {
    /// So many empty chains, and room for so many items in all.
    pub fn with_room(alloc: Global, chains: usize, room: usize) -> Result<Slots<T>, OutOfMemory>
        ensures chains { IfOk result (λ slots. slots.chains ≡ replicate chains []) }
        ensures spare { IfOk result (λ slots. slots.spare ≡ room) }
        ensures walked { IfOk result (λ slots. slots.walked ≡ 0) }
        ensures room { IfOk result (λ slots. slots.room ≡ chains + 1 + room) }
    {
        let Some(heads) = chains.checked_add(1) else {
            return Err(OutOfMemory);
        };
        let Some(cells) = heads.checked_add(room) else {
            return Err(OutOfMemory);
        };
        Ok(Slots {
            next: copies(alloc, Link::none(), heads, cells)?,
            items: copies(alloc, None, heads, cells)?,
            chains,
            spare: room,
            walked: 0,
        })
    }

    /// How many more items there is room for.
    pub fn spare(&self) -> usize
        ensures spare { result ≡ self.now.spare }
        ensures once { (slot : ℕ) → places self.now.chains slot ≤ 1 }
    {
        self.spare
    }

    /// How many steps were made from a slot to the next one, and how many items were asked for to be taken out; it stays at
    /// 2^64 - 1 once there.
    pub fn walked(&self) -> u64
        ensures { result ≡ self.now.walked }
    {
        self.walked
    }

    /// The first slot of the chain, if it has one.
    pub fn first(&self, chain: usize) -> Option<usize>
        requires { chain < length self.now.chains }
        ensures first { result ≡ first_slot (get_or self.now.chains chain []) }
        ensures fits { length (get_or self.now.chains chain []) < 2 ^ 64 }
    {
        self.next[chain + 1].cell()
    }

    /// The item of a slot in use.
    pub fn item(&self, slot: usize) -> T
        requires { Stands self.now.chains slot }
        ensures { (chain : ℕ) (before rest : List (ℕ × T)) (item : T) → StandsAt self.now.chains slot chain before item rest → result ≡ item }
    {
        match self.items[slot] {
            Some(item) => item,
            None => unreachable!(),
        }
    }

    /// The slot after a slot in use, if it isn't the last of its chain. The step is counted.
    pub fn next(&mut self, slot: usize) -> Option<usize>
        requires { Stands self.old.chains slot }
        ensures next { (chain : ℕ) (before rest : List (ℕ × T)) (item : T) → StandsAt self.old.chains slot chain before item rest → result ≡ first_slot rest }
        ensures chains { self.new.chains ≡ self.old.chains }
        ensures spare { self.new.spare ≡ self.old.spare }
        ensures walked { self.new.walked ≡ min (self.old.walked + 1) (2 ^ 64 - 1) }
        ensures room { self.new.room ≡ self.old.room }
        ensures nearer { IfSome result (λ after. left_from self.new.chains after + 1 ≡ left_from self.old.chains slot) }
    {
        self.walked = counted(self.walked);
        self.next[slot].cell()
    }

    /// Puts an item into a slot that was not in use, as the first of the chain.
    pub fn put_first(&mut self, chain: usize, item: T) -> usize
        requires chain { chain < length self.old.chains }
        requires spare { 1 ≤ self.old.spare }
        ensures chains { self.new.chains ≡ set self.old.chains chain ((result, item) ∷ get_or self.old.chains chain []) }
        ensures unused { Stands self.old.chains result → ⊥ }
        ensures spare { self.new.spare + 1 ≡ self.old.spare }
        ensures walked { self.new.walked ≡ self.old.walked }
        ensures room { self.new.room ≡ self.old.room }
    {
        let slot = new_slot(&mut self.next, &mut self.items, item);
        put_behind(&mut self.next, chain + 1, slot);
        self.spare -= 1;
        slot
    }

    /// Puts an item into a slot that was not in use, straight after a slot in use.
    pub fn put_after(&mut self, slot: usize, item: T) -> usize
        requires slot { Stands self.old.chains slot }
        requires spare { 1 ≤ self.old.spare }
        ensures chains { (chain : ℕ) (before rest : List (ℕ × T)) (item_before : T) → StandsAt self.old.chains slot chain before item_before rest
            → self.new.chains ≡ set self.old.chains chain (before ++ (slot, item_before) ∷ (result, item) ∷ rest) }
        ensures unused { Stands self.old.chains result → ⊥ }
        ensures spare { self.new.spare + 1 ≡ self.old.spare }
        ensures walked { self.new.walked ≡ self.old.walked }
        ensures room { self.new.room ≡ self.old.room }
    {
        let new = new_slot(&mut self.next, &mut self.items, item);
        put_behind(&mut self.next, slot, new);
        self.spare -= 1;
        new
    }

    /// Takes out the first item of the chain, if it has one. The step is counted, as the one behind it comes first then:
    /// so a chain that is taken apart from its front is as dear as one that is walked.
    pub fn take_first(&mut self, chain: usize) -> Option<T>
        requires { chain < length self.old.chains }
        ensures item { result ≡ first_item (get_or self.old.chains chain []) }
        ensures chains { self.new.chains ≡ set self.old.chains chain (behind_first (get_or self.old.chains chain [])) }
        ensures spare { MatchOption result (self.new.spare ≡ self.old.spare) (λ _. self.new.spare ≡ self.old.spare + 1) }
        ensures walked { self.new.walked ≡ min (self.old.walked + 1) (2 ^ 64 - 1) }
        ensures room { self.new.room ≡ self.old.room }
    {
        self.walked = counted(self.walked);
        let Some(slot) = self.next[chain + 1].cell() else {
            return None;
        };
        free_behind(&mut self.next, chain + 1, slot);
        self.spare += 1;
        self.items[slot]
    }

    /// Takes out the item of the slot after a slot in use, if that isn't the last of its chain. The step is counted.
    pub fn take_after(&mut self, slot: usize) -> Option<T>
        requires { Stands self.old.chains slot }
        ensures item { (chain : ℕ) (before rest : List (ℕ × T)) (item : T) → StandsAt self.old.chains slot chain before item rest → result ≡ first_item rest }
        ensures chains { (chain : ℕ) (before rest : List (ℕ × T)) (item : T) → StandsAt self.old.chains slot chain before item rest
            → self.new.chains ≡ set self.old.chains chain (before ++ (slot, item) ∷ behind_first rest) }
        ensures spare { MatchOption result (self.new.spare ≡ self.old.spare) (λ _. self.new.spare ≡ self.old.spare + 1) }
        ensures walked { self.new.walked ≡ min (self.old.walked + 1) (2 ^ 64 - 1) }
        ensures room { self.new.room ≡ self.old.room }
        ensures fewer { IfSome result (λ _. left_from self.new.chains slot + 1 ≡ left_from self.old.chains slot) }
    {
        self.walked = counted(self.walked);
        let Some(old) = self.next[slot].cell() else {
            return None;
        };
        free_behind(&mut self.next, slot, old);
        self.spare += 1;
        self.items[old]
    }
}
