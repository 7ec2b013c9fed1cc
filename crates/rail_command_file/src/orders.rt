//! Commands by names, as lines spell them.

ghost use Rattle.std.specs.Prelude.{◌≡◌, ◌≤◌, ◌^◌, cond, length, Some, None};
ghost use Rattle.rail_text.specs.Lines.{words};
ghost use Rattle.rail_text.specs.Decimals.{value_of};
ghost use Rattle.rail_command_file.specs.Orders.{is_priority, named_command, named_order, order_named, order_of, priority_named};

use rail_base::{Name, Names, Order, Time};
use rail_text::{input_time, is_decimal, next_word, value_of};

/// An order as a line spells it: by names.
#[derive(Clone, Copy, Debug)]
pub(crate) enum NamedOrder {
    Policy(Name),
    Retire(Name),
    Close(Name),
    Open(Name),
    Stop(Name),
    Go(Name),
    Cancel(Name),
    Priority(Name, u8),
}

/// A command as a line spells it: a time, and an order by names.
#[derive(Clone, Copy, Debug)]
pub(crate) struct NamedCommand {
    pub(crate) at: Time,
    pub(crate) what: NamedOrder,
}

/// The command that a line spells: `None` exactly where the line is not of a command's form.
pub(crate) fn named_command(line: &[u8]) -> Option<NamedCommand>
    ensures { result ≡ named_command (words line.now) }
{
    let (time, rest) = next_word(line)?;
    let at = input_time(time)?;
    let what = named_order(rest)?;
    Some(NamedCommand { at, what })
}

/// The order that words spell.
fn named_order(args: &[u8]) -> Option<NamedOrder>
    ensures { result ≡ named_order (words args.now) }
{
    let (verb, rest) = next_word(args)?;
    let (name, rest) = next_word(rest)?;
    let name = Name::read(name)?;
    match next_word(rest) {
        None => order_named(verb, name),
        Some((number, rest)) => {
            if next_word(rest).is_some() {
                return None;
            }
            priority_named(verb, name, number)
        }
    }
}

/// The order of a verb and a name.
fn order_named(verb: &[u8], name: Name) -> Option<NamedOrder>
    ensures { result ≡ order_named verb.now name }
{
    if verb == b"policy".as_slice() {
        Some(NamedOrder::Policy(name))
    } else if verb == b"retire".as_slice() {
        Some(NamedOrder::Retire(name))
    } else if verb == b"close".as_slice() {
        Some(NamedOrder::Close(name))
    } else if verb == b"open".as_slice() {
        Some(NamedOrder::Open(name))
    } else if verb == b"stop".as_slice() {
        Some(NamedOrder::Stop(name))
    } else if verb == b"go".as_slice() {
        Some(NamedOrder::Go(name))
    } else if verb == b"cancel".as_slice() {
        Some(NamedOrder::Cancel(name))
    } else {
        None
    }
}

/// The order of a verb, a name and a number.
fn priority_named(verb: &[u8], name: Name, number: &[u8]) -> Option<NamedOrder>
    ensures { result ≡ priority_named verb.now name number.now }
{
    if verb == b"priority".as_slice() {
        Some(NamedOrder::Priority(name, priority(number)?))
    } else {
        None
    }
}

/// The priority that a word spells.
fn priority(word: &[u8]) -> Option<u8>
    ensures { result ≡ cond (is_priority word.now) (Some (value_of word.now)) None }
{
    if !is_decimal(word) {
        return None;
    }
    u8::try_from(value_of(word)).ok()
}

/// The order, where what it names is known.
pub(crate) fn order_of(names: &Names, order: NamedOrder) -> Option<Order>
    requires sections { length names.now.sections.keys ≤ 2 ^ 16 }
    requires trains { length names.now.trains.keys ≤ 2 ^ 16 }
    ensures { result ≡ order_of names.now.sections.keys names.now.trains.keys order }
{
    Some(match order {
        NamedOrder::Policy(name) => Order::Policy(name),
        NamedOrder::Retire(name) => Order::Retire(name),
        NamedOrder::Close(name) => Order::Close(names.section(name)?),
        NamedOrder::Open(name) => Order::Reopen(names.section(name)?),
        NamedOrder::Stop(name) => Order::Stop(names.train(name)?),
        NamedOrder::Go(name) => Order::Go(names.train(name)?),
        NamedOrder::Cancel(name) => Order::Cancel(names.train(name)?),
        NamedOrder::Priority(name, n) => Order::Priority(names.train(name)?, n),
    })
}
