//! What each kind of policy chooses, which decks are fine, and what comes of the calls of a desk.
ghost use Rattle.rail_base.specs.declared.orders.PolicyKind.TheVariants.{Custom};

use rail_base::{Name, PolicyKind, Time, TrainNo};
use rail_policy::{
    Asked, Desk, FcfsPolicy, Offer, Policy, PriorityPolicy, Retire, RotatingPolicy,
    TimetablePolicy, UnknownName, deck_is_fine,
};
use std::alloc::{AllocError, Global};

/// A policy of a kind of its own. It answers the last offer, or always the same number.
#[derive(Debug, Drop)]
struct Stubborn {
    name: Name,
    always: Option<usize>,
    mark: u16,
    answered: usize,
}

impl Stubborn {
    fn new(name: Name, always: Option<usize>) -> Stubborn {
        Stubborn {
            name,
            always,
            mark: 0,
            answered: 0,
        }
    }
}

impl Policy for Stubborn {
    ghost seat = { λ policy. record { name = policy.name; kind = Custom; mark = policy.mark; answered = policy.answered } };

    fn name(&self) -> Name {
        self.name
    }

    fn kind(&self) -> PolicyKind {
        PolicyKind::Custom
    }

    fn mark(&self) -> u16 {
        self.mark
    }

    fn answered(&self) -> usize {
        self.answered
    }

    fn choose(&mut self, offers: &[Offer]) -> usize {
        self.mark = self.mark.wrapping_add(1);
        self.answered = self.always.unwrap_or(offers.len() - 1);
        self.answered
    }

    fn note(&mut self, _admitted: TrainNo) {}
}

/// Adds the box.
fn push(deck: &mut Vec<Box<dyn Policy>>, policy: Box<dyn Policy>) -> Result<(), AllocError> {
    deck.push(policy)?;
    Ok(())
}

/// The offers of the words. A word has the train, its priority, and its entry, due and ready time, each as
/// one digit.
fn offers_of(alloc: Global, words: &str) -> Result<Vec<Offer>, AllocError> {
    let mut offers = Vec::new(alloc);
    for word in words.split(" ") {
        if let [train, priority, entry, due, ready] = word.as_bytes() {
            offers.push(Offer {
                train: TrainNo(u16::from(digit(*train))),
                place: 1,
                priority: digit(*priority),
                entry: Time(u64::from(digit(*entry))),
                due: Time(u64::from(digit(*due))),
                ready: Time(u64::from(digit(*ready))),
            })?;
        }
    }
    Ok(offers)
}

fn digit(letter: u8) -> u8 {
    letter.saturating_sub(b'0')
}

/// What the policy answers to the offers of the words, where it tells the same of its last answer.
fn answer<P: Policy>(alloc: Global, policy: &mut P, words: &str) -> Option<usize> {
    let offers = offers_of(alloc, words).ok()?;
    if offers.is_empty() {
        return None;
    }
    let place = policy.choose(&offers);
    let is_told = policy.answered() == place;
    if is_told { Some(place) } else { None }
}

/// What a turn at the desk with the offers of the words chooses, where the desk tells the same of its last turn.
fn chosen(alloc: Global, desk: &mut Desk, words: &str) -> Option<usize> {
    let offers = offers_of(alloc, words).ok()?;
    if offers.is_empty() {
        return None;
    }
    let place = desk.turn(&offers);
    let offer = *offers.get(place)?;
    let offered = offers.len();
    let is_told = desk.last() == Some(Asked { offer, offered });
    if is_told { Some(place) } else { None }
}

// Offers of which the second one is chosen. By priority 4, by entry 1, and by train 0.
const BY_PRIORITY: &str = "05100 14999 25000
04900 14199 24300
24100 04199 14100";

// By due time 2, and by train 0.
const BY_DUE_TIME: &str = "00051 19929 20050
20050 09959 10050";

// By ready time 2, and by train 0.
const BY_READY_TIME: &str = "00015 19992 20005
20005 09995 10005";

#[test]
fn the_least_key_is_chosen(rt: HostRuntime) {
    let alloc = rt.alloc();
    let others = [
        first_other(alloc, &mut PriorityPolicy::new(), BY_PRIORITY),
        first_other(alloc, &mut TimetablePolicy::new(), BY_DUE_TIME),
        first_other(alloc, &mut FcfsPolicy::new(), BY_READY_TIME),
    ];
    assert_eq!(rt; others, [None; 3]);
}

/// The first of the cases in which the policy chooses another offer than the second one.
fn first_other<'a, P: Policy>(alloc: Global, policy: &mut P, cases: &'a str) -> Option<&'a str> {
    for words in cases.lines() {
        if answer(alloc, policy, words) != Some(1) {
            return Some(words);
        }
    }
    None
}

#[test]
fn the_mark_goes_round(rt: HostRuntime) {
    assert!(rt; rotated(rt.alloc()) == ([0, 2, 0], [Some(1), Some(2), Some(0)]));
}

/// The marks of a rotating policy at first, behind train 1 and behind the last train, and its answers at the marks
/// 0, 2 and 3.
fn rotated(alloc: Global) -> ([u16; 3], [Option<usize>; 3]) {
    let words = "30000 19999 20000";
    let mut rotating = RotatingPolicy::new();
    let at_first = rotating.mark();
    let first = answer(alloc, &mut rotating, words);
    rotating.note(TrainNo(1));
    let behind = rotating.mark();
    let second = answer(alloc, &mut rotating, words);
    rotating.note(TrainNo(2));
    let third = answer(alloc, &mut rotating, words);
    rotating.note(TrainNo(65_535));
    ([at_first, behind, rotating.mark()], [first, second, third])
}

#[test]
fn names_and_kinds(rt: HostRuntime) {
    let told = [
        told(&PriorityPolicy::new()),
        told(&TimetablePolicy::new()),
        told(&FcfsPolicy::new()),
        told(&RotatingPolicy::new()),
    ];
    let wanted = [
        (Name::read(b"priority"), PolicyKind::Priority),
        (Name::read(b"timetable"), PolicyKind::Timetable),
        (Name::read(b"fcfs"), PolicyKind::Fcfs),
        (Name::read(b"rotating"), PolicyKind::Rotating),
    ];
    assert!(rt; told == wanted);
}

/// The name and the kind of the policy.
fn told<P: Policy>(policy: &P) -> (Option<Name>, PolicyKind) {
    (Some(policy.name()), policy.kind())
}

#[test]
fn a_deck_has_1_to_16_boxes_with_distinct_names(rt: HostRuntime) {
    let alloc = rt.alloc();
    let told = (lengths(alloc), twice(alloc));
    assert!(rt; told == (Ok((17, [false, true, false])), Ok(false)));
}

/// How many boxes a deck with names from A to P and one more has; and whether it is fine without boxes, with each
/// more to P, and with all.
fn lengths(alloc: Global) -> Result<(usize, [bool; 3]), AllocError> {
    let mut deck: Vec<Box<dyn Policy>> = Vec::new(alloc);
    let is_fine = deck_is_fine(&deck);
    let stays_fine = stays_fine(alloc, &mut deck, "A B C D E F G H I J K L M N O P")?;
    push(&mut deck, Box::new(alloc, FcfsPolicy::new())?)?;
    Ok((deck.len(), [is_fine, stays_fine, deck_is_fine(&deck)]))
}

/// Whether the deck is fine with each box more of these names.
fn stays_fine(
    alloc: Global,
    deck: &mut Vec<Box<dyn Policy>>,
    names: &str,
) -> Result<bool, AllocError> {
    for name in names.split(" ") {
        if let Some(name) = Name::read(name.as_bytes()) {
            push(deck, Box::new(alloc, Stubborn::new(name, None))?)?;
        }
        if !deck_is_fine(deck) {
            return Ok(false);
        }
    }
    Ok(true)
}

/// Whether a deck is fine in which a name stands twice.
fn twice(alloc: Global) -> Result<bool, AllocError> {
    let mut deck: Vec<Box<dyn Policy>> = Vec::new(alloc);
    push_twice(alloc, &mut deck)?;
    Ok(deck_is_fine(&deck))
}

fn push_twice(alloc: Global, deck: &mut Vec<Box<dyn Policy>>) -> Result<(), AllocError> {
    push(deck, Box::new(alloc, FcfsPolicy::new())?)?;
    push(deck, Box::new(alloc, RotatingPolicy::new())?)?;
    push(deck, Box::new(alloc, FcfsPolicy::new())?)
}

/// A desk with the deck, of which the box at this place is in force.
fn desk_of(deck: Vec<Box<dyn Policy>>, force: usize) -> Option<Desk> {
    if force < deck.len() && deck_is_fine(&deck) {
        Some(Desk::new(deck, force))
    } else {
        None
    }
}

/// The kind in force, how many policies there are, the last turn before the first, what is chosen, and what comes
/// of an exchange.
type Turns = (
    PolicyKind,
    usize,
    Option<Asked>,
    [Option<usize>; 2],
    Result<(), UnknownName>,
);

#[test]
fn an_answer_out_of_range_counts_as_the_first_offer(rt: HostRuntime) {
    let turns = (PolicyKind::Custom, 2, None, [Some(0), Some(2)], Ok(()));
    assert!(rt; odd_turns(rt.alloc()) == Some((Some(9_999), 1, turns)));
}

/// What a policy answers that always answers out of range, and its mark; and the turns at a desk where it is in
/// force, and then one that answers the last offer.
fn odd_turns(alloc: Global) -> Option<(Option<usize>, u16, Turns)> {
    let words = "30001 10002 20003";
    let last = Name::read(b"last")?;
    let mut odd = Stubborn::new(Name::read(b"odd")?, Some(9_999));
    let answered = answer(alloc, &mut odd, words);
    let mark = odd.mark();
    let mut desk = stubborn_desk(alloc, odd, Stubborn::new(last, None))?;
    let (kind, policies, before) = (desk.kind_in_force(), desk.len(), desk.last());
    let first = chosen(alloc, &mut desk, words);
    let exchanged = desk.exchange(last);
    let second = chosen(alloc, &mut desk, words);
    Some((
        answered,
        mark,
        (kind, policies, before, [first, second], exchanged),
    ))
}

/// A desk with the two policies, the first of them in force.
fn stubborn_desk(alloc: Global, first: Stubborn, second: Stubborn) -> Option<Desk> {
    let mut deck: Vec<Box<dyn Policy>> = Vec::new(alloc);
    push_both(alloc, &mut deck, first, second).ok()?;
    desk_of(deck, 0)
}

fn push_both(
    alloc: Global,
    deck: &mut Vec<Box<dyn Policy>>,
    first: Stubborn,
    second: Stubborn,
) -> Result<(), AllocError> {
    push(deck, Box::new(alloc, first)?)?;
    push(deck, Box::new(alloc, second)?)
}

/// The kinds in force, what comes of exchanges and of retirements, which policy is in force and how many there are,
/// the name of the last one, and what it chooses.
type Changes = (
    [PolicyKind; 2],
    [Result<(), UnknownName>; 2],
    [Result<(), Retire>; 3],
    [usize; 4],
    Option<Name>,
    Option<usize>,
);

#[test]
fn a_desk_exchanges_and_retires(rt: HostRuntime) {
    let changes = (
        [PolicyKind::Fcfs, PolicyKind::Rotating],
        [Err(UnknownName), Ok(())],
        [Err(Retire::Unknown), Err(Retire::InForce), Ok(())],
        [4, 3, 3, 2],
        Name::read(b"rotating"),
        Some(2),
    );
    assert!(rt; changes_at_a_desk(rt.alloc()) == Some(changes));
}

/// What comes of changes at a desk with all built-in policies: the rotating one is put in force, and the first one
/// retires.
fn changes_at_a_desk(alloc: Global) -> Option<Changes> {
    let (best, rotating) = (Name::read(b"best")?, Name::read(b"rotating")?);
    let priority = Name::read(b"priority")?;
    let mut desk = built_in_desk(alloc, 2)?;
    let (policies, kind) = (desk.len(), desk.kind_in_force());
    let exchanged = [desk.exchange(best), desk.exchange(rotating)];
    let (kind_then, force) = (desk.kind_in_force(), desk.force());
    let retired = [
        desk.retire(best),
        desk.retire(rotating),
        desk.retire(priority),
    ];
    let last = name_at(&desk, 2);
    desk.noted(TrainNo(1));
    let choice = chosen(alloc, &mut desk, "10000 30000 20000");
    Some((
        [kind, kind_then],
        exchanged,
        retired,
        [policies, force, desk.len(), desk.force()],
        last,
        choice,
    ))
}

/// The name of the policy at this place of the desk, if there is one.
fn name_at(desk: &Desk, index: usize) -> Option<Name> {
    if index < desk.len() {
        Some(desk.name_at(index))
    } else {
        None
    }
}

/// A desk with the built-in policies, of which the one at this place is in force.
fn built_in_desk(alloc: Global, force: usize) -> Option<Desk> {
    let mut deck: Vec<Box<dyn Policy>> = Vec::new(alloc);
    push_built_in(alloc, &mut deck).ok()?;
    desk_of(deck, force)
}

fn push_built_in(alloc: Global, deck: &mut Vec<Box<dyn Policy>>) -> Result<(), AllocError> {
    push(deck, Box::new(alloc, PriorityPolicy::new())?)?;
    push(deck, Box::new(alloc, TimetablePolicy::new())?)?;
    push(deck, Box::new(alloc, FcfsPolicy::new())?)?;
    push(deck, Box::new(alloc, RotatingPolicy::new())?)
}
