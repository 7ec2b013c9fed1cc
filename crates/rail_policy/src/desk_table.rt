//! `Seen`: the table that contracts see of a desk.

ghost use Rattle.std.specs.Prelude.{map};
ghost use Rattle.rail_policy.specs.Desks.{Table};

use crate::desk::Desk;
use crate::policy::Policy;

/// What contracts see of a desk.
pub trait Seen {
    ghost table: { Self → Table };
}

impl Seen for Desk {
    ghost table = { λ desk. record {
      seats = map (λ held. (Policy-box held).seat held.value) desk.deck.items;
      force = desk.force;
      last = desk.last;
    } };
}
