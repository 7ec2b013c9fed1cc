//! Track sections and their kinds, and why a change of a track or network fails.

ghost use Rattle.std.specs.Prelude.{◌≡◌, List, ℕ};

use crate::roll::Keyed;
use rail_base::{Name, Reason, Seq, TrainKind};
use std::alloc::AllocError;
use thiserror::Error;

/// What a section is, which decides its passages.
#[derive(Clone, Copy, Debug, PartialEq, Eq)]
pub enum SectionKind {
    /// Two joints, with one passage between them.
    Plain,
    /// A tip and two legs, with a passage from the tip to each leg.
    Points,
    /// Two tracks that cross: from the first joint to the second, and from the third to the fourth.
    Crossing,
    /// A crossing in which each track can also be left for the other: the passages of a crossing,
    /// and from the first joint to the fourth, and from the third to the second.
    Slip,
}

/// A track section.
#[derive(Debug)]
pub struct Section {
    pub name: Name,
    pub kind: SectionKind,
    /// Metres.
    pub length: u32,
    /// Permitted speed in km/h.
    pub speed: u32,
    /// The joints in the order that the kind gives them.
    pub joints: Seq<Name>,
}

impl Drop for Section {
    fn drop(self) {
        let Section {
            name: _name,
            kind: _kind,
            length: _length,
            speed: _speed,
            joints: _joints,
        } = self;
    }
}

/// A name is its own key.
impl Keyed<Name> for Name {
    ghost key_of = { λ name. name };

    fn key(&self) -> Name {
        *self
    }
}

impl Keyed<Name> for Section {
    ghost key_of = { λ section. section.name };

    fn key(&self) -> Name {
        self.name
    }
}

impl Keyed<Name> for TrainKind {
    ghost key_of = { λ kind. kind.name };

    fn key(&self) -> Name {
        self.name
    }
}

/// What a call that changes a track or a network answers in place of its result.
#[derive(Clone, Copy, Debug, PartialEq, Eq, Error)]
pub enum NetFault {
    /// The item is refused. The step is the number of the key, joint or step of the item, counted
    /// from 1; 0 where none is meant.
    #[error("refused")]
    Refused { reason: Reason, step: u32 },
    #[error("out of memory")]
    OutOfMemory,
}

impl From<AllocError> for NetFault {
    ghost use Rattle.rail_track.specs.declared.section.NetFault.TheVariants as fault;

    ghost from_gives = { λ _ e. e ≡ fault.OutOfMemory };

    fn from(_: AllocError) -> NetFault {
        NetFault::OutOfMemory
    }
}
