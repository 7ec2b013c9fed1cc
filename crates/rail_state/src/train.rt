//! One train.

ghost use Rattle.std.specs.Prelude.{◌≡◌, ℕ, ◌-◌, ◌<◌, ◌≤◌, ◌&&◌, ◌||◌, not, List, [], ◌∷◌, ◌++◌, get_or, length, true, false, None, vec_len, vec_capacity};
ghost use Rattle.std.specs.List.{All};
ghost use Rattle.rail_base.specs.declared.limits.TheConstants.{ITINERARY_ROUTES, OVERLAP_SECTIONS, SECTIONS, TRAINS};
ghost use Rattle.rail_sets.specs.TrainSets.{has_train};
ghost use Rattle.rail_state.specs.BlockedAt.{set_at};
ghost use Rattle.rail_rules.specs.Plant.{claimed, moves, step_section, steps, trains};
ghost use Rattle.rail_laws_step.specs.HolderTables.{bar_holder, held_cause, own_overlap};
ghost use Rattle.rail_state.specs.TrainStates.{is_touched, state_told};
ghost use Rattle.rail_state.specs.TrainStates.{admitted, after_taking, bar_by, head_behind, is_at_first, is_blocked_at, is_blocked_before, lacks_hold_line, is_untried, looked_at, outside, outlasts_taking, after_hold_line, without_known};
ghost use Rattle.rail_state.specs.TrainSearches.{is_changeable};

use crate::blocked_at::BlockedAt;
use rail_base::{Cause, Order, SectionNo, Time, TrainNo};
use rail_block::{MoveTimes, entry_times};
use rail_holders::Holders;
use rail_orders::ToldOrders;
use rail_plan::Plant;

/// Where the head of a train enters a section next: a move and a step of it, both counted from 1.
#[derive(Clone, Copy, Debug, PartialEq, Eq)]
pub struct Head {
    pub place: u16,
    pub step: u16,
}

/// What a run keeps of a train. Its next move is the one after its last admitted move.
#[derive(Clone, Copy, Debug, PartialEq, Eq)]
pub struct TrainState {
    /// How many of its moves are admitted.
    pub place: u16,
    /// The times of its last admitted move, or of its entry.
    pub times: MoveTimes,
    pub head: Head,
    /// When it arrives at the end of its last admitted move by a stop, as long as it may still pass there.
    pub deferred: Option<Time>,
    /// The ready line of its next move was given.
    pub waits: bool,
    /// The cause on the last hold line of its next move.
    pub last_hold: Option<Cause>,
    /// Why its next move isn't admitted, where this is known.
    pub known: Option<Cause>,
    /// Where the known cause is that a section is blocked, whether it is the first one of its next move: then no admission
    /// changes the cause.
    pub at_first: bool,
    /// Its out line was given.
    pub is_out: bool,
}

impl TrainState {
    /// Whether the train waits, and the cause of its next move isn't known.
    pub fn is_untried(&self) -> bool
        ensures { result ≡ is_untried self.now }
    {
        self.known.is_none() && self.waits
    }

    /// Whether the train has a known cause that its last hold line doesn't name.
    pub fn lacks_hold_line(&self) -> bool
        ensures { result ≡ lacks_hold_line self.now }
    {
        self.waits && self.known.is_some() && self.last_hold != self.known
    }

    /// Whether the train is neither out nor cancelled.
    pub(crate) fn is_left(&self, orders: &ToldOrders, train: TrainNo) -> bool
        ensures { result ≡ not (self.now.is_out || get_or orders.now.cancelled train false) }
    {
        !self.is_out && !orders.is_cancelled(train)
    }

    /// Whether an admission of another train may change the known cause.
    pub(crate) fn is_changeable(&self) -> bool
        ensures { result ≡ is_changeable self.now }
    {
        match self.known {
            Some(Cause::Blocked { .. }) => !self.at_first,
            Some(Cause::NoList) => true,
            _ => false,
        }
    }

    /// Whether the known cause is that this section is blocked.
    fn is_blocked_at(&self, freed: SectionNo) -> bool
        ensures { result ≡ is_blocked_at freed self.now.known }
    {
        is_blocked_at(&self.known, freed)
    }

    /// The cause is no longer known where it was that this section is blocked. Whether it was.
    pub(crate) fn forget(&mut self, freed: SectionNo) -> bool
        ensures train_state { self.new ≡ without_known freed self.old }
        ensures was { result ≡ is_blocked_at freed self.old.known }
    {
        let was_blocked = self.is_blocked_at(freed);
        if was_blocked {
            self.known = None;
        }
        was_blocked
    }

    /// The cause of the train, where it is untried and a command or a taken section bars its next move.
    pub(crate) fn look(
        &mut self,
        plant: &Plant,
        orders: &ToldOrders,
        holders: &Holders,
        train: TrainNo,
    )
        requires known { train < trains plant.now }
        requires sections { length holders.now ≡ length plant.now.tables.sections }
        requires moves { self.old.waits ≡ true → self.old.place < moves plant.now train }
        ensures { self.new ≡ looked_at plant.now (bar_by orders.now holders.now) train self.old }
    {
        if self.is_untried() {
            has_few_moves(plant, train);
            let sections = claimed_sections(plant, train, self.place + 1);
            self.known = bar_of(plant, orders, holders, train, self.place, sections);
            self.at_first = self.is_blocked_at_first(sections);
        }
    }

    /// Whether the known cause is that the first of these sections is blocked.
    fn is_blocked_at_first(&self, sections: &[SectionNo]) -> bool
        ensures { result ≡ is_at_first self.now.known sections.now }
    {
        match self.known {
            Some(Cause::Blocked { section, .. }) => sections.first() == Some(&section),
            _ => false,
        }
    }

    /// Where the known cause is that a section is blocked, the train is noted as blocked at it.
    pub(crate) fn note_in(&self, blocked: &mut BlockedAt, train: TrainNo)
        requires section { (x : ℕ) → is_blocked_at x self.now.known ≡ true → x < SECTIONS }
        requires train { train < TRAINS }
        ensures here { (x : ℕ) → is_blocked_at x self.now.known ≡ true → has_train (set_at blocked.new x) train ≡ true }
        ensures others { (x t : ℕ) → has_train (set_at blocked.old x) t ≡ true → has_train (set_at blocked.new x) t ≡ true }
    {
        match self.known {
            Some(Cause::Blocked { section, .. }) => blocked.insert(section, train),
            _ => {}
        }
    }

    /// Another train took sections, which leaves these holders: the cause stays known as long as the train waits and the
    /// cause is the same. Whether it stays so.
    pub(crate) fn note_taking(&mut self, plant: &Plant, holders: &Holders, train: TrainNo) -> bool
        requires known { train < trains plant.now }
        requires sections { length holders.now ≡ length plant.now.tables.sections }
        requires moves { self.old.waits ≡ true → self.old.place < moves plant.now train }
        ensures train_state { self.new ≡ after_taking plant.now holders.now train self.old }
        ensures same { result ≡ true → self.new ≡ self.old }
        ensures forgotten { result ≡ false → self.new.known ≡ None }
    {
        let stays = self.waits && self.outlasts_taking(plant, holders, train);
        if !stays {
            self.known = None;
        }
        stays
    }

    /// Whether the cause of the train's next move is the same behind an admission, which leaves these holders.
    fn outlasts_taking(&self, plant: &Plant, holders: &Holders, train: TrainNo) -> bool
        requires known { train < trains plant.now }
        requires sections { length holders.now ≡ length plant.now.tables.sections }
        requires moves { self.now.place < moves plant.now train }
        ensures { result ≡ outlasts_taking holders.now train (own_overlap plant.now train self.now.place) (claimed plant.now train self.now.place) self.now.known }
    {
        match self.known {
            Some(Cause::Blocked { section, .. }) => {
                has_few_moves(plant, train);
                let sections = claimed_sections(plant, train, self.place + 1);
                // Mostly the section still is the first one that is held.
                if is_first_held(holders, section, sections) {
                    return true;
                }
                let own = overlap_behind(plant, train, self.place);
                !is_blocked_before(holders, train, own, section, sections)
            }
            Some(Cause::NoList) => false,
            _ => true,
        }
    }

    /// The order was told: a cause that it may change is no longer known, and a train that it cancels does not wait.
    pub(crate) fn tell(&mut self, plant: &Plant, order: &Order, train: TrainNo)
        requires known { train < trains plant.now }
        requires moves { self.old.waits ≡ true → self.old.place < moves plant.now train }
        requires waits { self.old.waits ≡ false → self.old.known ≡ None }
        ensures { self.new ≡ state_told plant.now (order.now ∷ []) train self.old }
    {
        if self.waits && self.is_touched(plant, order, train) {
            self.known = None;
        }
        if *order == Order::Cancel(train) {
            self.waits = false;
        }
    }

    /// Whether the order may change the cause of the train's next move, or cancels the train.
    fn is_touched(&self, plant: &Plant, order: &Order, train: TrainNo) -> bool
        requires known { train < trains plant.now }
        requires moves { self.now.place < moves plant.now train }
        ensures { result ≡ is_touched plant.now (order.now ∷ []) train self.now }
    {
        match order {
            Order::Close(section) | Order::Reopen(section) => {
                has_few_moves(plant, train);
                claimed_sections(plant, train, self.place + 1).contains(section)
            }
            Order::Stop(other) | Order::Go(other) | Order::Cancel(other) => *other == train,
            Order::Policy(_) | Order::Retire(_) | Order::Priority(..) => false,
        }
    }

    /// The hold line of the next move was given, with the known cause. The arrival that was deferred.
    pub(crate) fn hold(&mut self) -> Option<Time>
        ensures train_state { self.new ≡ after_hold_line self.old }
        ensures arrival { result ≡ self.old.deferred }
    {
        self.last_hold = self.known;
        self.deferred.take()
    }

    /// The next move is admitted, with these times; `arrival` is deferred.
    pub(crate) fn admit(&mut self, times: MoveTimes, arrival: Option<Time>)
        requires { self.old.place < 65535 }
        ensures { self.new ≡ admitted times arrival self.old }
    {
        self.place += 1;
        self.times = times;
        self.deferred = arrival;
        self.waits = false;
        self.last_hold = None;
        self.known = None;
    }
}

/// Whether the cause is that this section is blocked.
fn is_blocked_at(cause: &Option<Cause>, freed: SectionNo) -> bool
    ensures { result ≡ is_blocked_at freed cause.now }
{
    match cause {
        Some(Cause::Blocked { section, .. }) => *section == freed,
        _ => false,
    }
}

/// Adds the train before its entry.
pub(crate) fn push_outside(states: &mut Vec<TrainState>, plant: &Plant, train: TrainNo)
    requires train { train < trains plant.now }
    requires room { vec_len states.old < vec_capacity states.old }
    ensures trains { states.new.items ≡ states.old.items ++ outside plant.now train ∷ [] }
    ensures room { vec_capacity states.new ≡ vec_capacity states.old }
{
    states.push_reserved(TrainState {
        place: 0,
        times: entry_times(plant, train),
        head: Head { place: 1, step: 1 },
        deferred: None,
        waits: false,
        last_hold: None,
        known: None,
        at_first: false,
        is_out: false,
    });
}

/// The numbers of the train's moves are small.
fn has_few_moves(plant: &Plant, train: TrainNo)
    requires { train < trains plant.now }
    ensures { moves plant.now train ≤ ITINERARY_ROUTES }
{
    plant.train(train);
}

/// Where the head enters next, behind a step.
pub(crate) fn head_behind(plant: &Plant, train: TrainNo, head: Head) -> Head
    requires known { train < trains plant.now }
    requires first { 1 ≤ head.place }
    requires last { head.place ≤ moves plant.now train }
    ensures { result ≡ head_behind plant.now train head }
{
    has_few_moves(plant, train);
    let steps = plant.move_row(train, head.place).sections.as_slice().len();
    if usize::from(head.step) < steps {
        Head {
            place: head.place,
            step: head.step + 1,
        }
    } else {
        Head {
            place: head.place + 1,
            step: 1,
        }
    }
}

/// The section of the step at which the head is.
pub(crate) fn section_at(plant: &Plant, train: TrainNo, head: Head) -> SectionNo
    requires known { train < trains plant.now }
    requires first { 1 ≤ head.place }
    requires last { head.place ≤ moves plant.now train }
    requires first_step { 1 ≤ head.step }
    requires last_step { head.step ≤ steps plant.now train (head.place - 1) }
    ensures { result ≡ step_section plant.now train (head.place - 1) (head.step - 1) }
{
    plant.move_row(train, head.place).sections.as_slice()[usize::from(head.step) - 1]
}

/// The sections that the train's move to this place claims.
pub fn claimed_sections(plant: &Plant, train: TrainNo, place: u16) -> &[SectionNo]
    requires train { train < trains plant.now }
    requires first { 1 ≤ place }
    requires last { place ≤ moves plant.now train }
    ensures sections { result.now ≡ claimed plant.now train (place - 1) }
    ensures known { All (λ x. x < length plant.now.tables.sections) result.now }
{
    plant.moves().claim(train, place)
}

/// The sections of the overlap of the move that brought the train to this place.
pub fn overlap_behind(plant: &Plant, train: TrainNo, place: u16) -> &[SectionNo]
    requires train { train < trains plant.now }
    requires last { place ≤ moves plant.now train }
    ensures sections { result.now ≡ own_overlap plant.now train place }
    ensures known { All (λ x. x < length plant.now.tables.sections) result.now }
    ensures few { length result.now ≤ OVERLAP_SECTIONS }
{
    if place == 0 {
        return &[];
    }
    plant.move_row(train, place).overlap.as_slice()
}

/// What bars a move over these sections of the train, which has made so many moves: that the train is stopped, else the
/// first closed section, else the first one whose holder bars the train.
fn bar_of(
    plant: &Plant,
    orders: &ToldOrders,
    holders: &Holders,
    train: TrainNo,
    place: u16,
    sections: &[SectionNo],
) -> Option<Cause>
    requires train { train < trains plant.now }
    requires last { place ≤ moves plant.now train }
    requires known { All (λ x. x < length holders.now) sections.now }
    ensures { result ≡ bar_by orders.now holders.now train (own_overlap plant.now train place) sections.now }
{
    let stopped = orders.stop_cause(train);
    if stopped.is_some() {
        return stopped;
    }
    let closed = orders.closed_cause(sections);
    if closed.is_some() {
        return closed;
    }
    first_cause(plant, holders, train, place, sections)
}

/// The cause that the first of these sections is whose holder bars the train, which has made so many moves. Mostly another
/// train holds the first one that is held, whatever the train's own overlap is.
#[tactic(auto, using(crate::proofs::FirstHeld::none_held, crate::proofs::FirstHeld::held_by_other))]
fn first_cause(
    plant: &Plant,
    holders: &Holders,
    train: TrainNo,
    place: u16,
    sections: &[SectionNo],
) -> Option<Cause>
    requires train { train < trains plant.now }
    requires last { place ≤ moves plant.now train }
    requires known { All (λ x. x < length holders.now) sections.now }
    ensures { result ≡ held_cause holders.now train (own_overlap plant.now train place) sections.now }
{
    let (section, holder) = holders.first_held(sections)?;
    if holder == train {
        return held_cause(
            holders,
            train,
            overlap_behind(plant, train, place),
            sections,
        );
    }
    Some(Cause::Blocked { section, holder })
}

/// The holder of the section, where it bars the train: a train isn't barred by its own overlap.
pub(crate) fn bar_holder(
    holders: &Holders,
    train: TrainNo,
    own: &[SectionNo],
    section: &SectionNo,
) -> Option<TrainNo>
    requires { section.now < length holders.now }
    ensures { result ≡ bar_holder holders.now train own.now section.now }
{
    match holders.holder(*section) {
        Some(holder) => {
            if holder == train && own.contains(section) {
                None
            } else {
                Some(holder)
            }
        }
        None => None,
    }
}

/// The cause that the first of these sections is whose holder bars the train.
pub fn held_cause(
    holders: &Holders,
    train: TrainNo,
    own: &[SectionNo],
    sections: &[SectionNo],
) -> Option<Cause>
    requires { All (λ x. x < length holders.now) sections.now }
    ensures { result ≡ held_cause holders.now train own.now sections.now }
{
    for section in sections {
        if let Some(holder) = bar_holder(holders, train, own, section) {
            return Some(Cause::Blocked {
                section: *section,
                holder,
            });
        }
    }
    None
}

/// Whether this section is the first of these that somebody holds. Then no section before it bars any train, whatever the
/// train's own overlap is.
#[tactic(auto, using(crate::proofs::FirstHeld::none_before_first))]
fn is_first_held(holders: &Holders, section: SectionNo, sections: &[SectionNo]) -> bool
    requires { All (λ x. x < length holders.now) sections.now }
    ensures { result ≡ true → (t : ℕ) (own : List ℕ) → is_blocked_before holders.now t own section sections.now ≡ false }
{
    match holders.first_held(sections) {
        Some((first, _)) => first == section,
        None => false,
    }
}

/// Whether the holder of a section that stands before this one among these bars the train.
fn is_blocked_before(
    holders: &Holders,
    train: TrainNo,
    own: &[SectionNo],
    section: SectionNo,
    sections: &[SectionNo],
) -> bool
    requires { All (λ x. x < length holders.now) sections.now }
    ensures { result ≡ is_blocked_before holders.now train own.now section sections.now }
{
    for other in sections {
        if *other == section {
            return false;
        }
        if bar_holder(holders, train, own, other).is_some() {
            return true;
        }
    }
    false
}
