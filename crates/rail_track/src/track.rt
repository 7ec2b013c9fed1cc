//! The track: its sections, which are added and removed by the rules, and its joints.

ghost use Rattle.std.specs.Prelude.{◌≡◌, ◌≤◌, [], ◌∷◌, ◌++◌, length, insert, Some, None, position, IfOk, IfErr, OnOk, OnErr};
ghost use Rattle.std.specs.List.{list_any};
ghost use Rattle.std.specs.Option.{option_copied};

use crate::accepting::{ClosedJoints, joint_count, joint_refusal};
use crate::passing::{has_joint, leads};
use crate::roll::Roll;
use crate::section::{NetFault, Section};
use crate::tally::{Tally, count_each, discount_each, times};
use indexmap::IndexMap;
use rail_base::limits::{SECTION_LENGTH, SECTIONS, SPEED};
use rail_base::{Name, Reason};
use std::alloc::{AllocError, AllocFailed, Global};
use std::marker::Model;

/// Sections by name, in the order in which they were added. Contracts see it as their list.
///
/// It is sound at any time: no more sections than the limit, each with values in range and a name of
/// its own, and each joint in at most two of them.
pub struct Track {
    sections: Roll<Name, Section>,
    uses: Tally<Name>,
}

/// Written out, so that it is proved once, and not at each place where a track is let go.
impl Drop for Track {
    fn drop(self) {
        let Track {
            sections: _,
            uses: _,
        } = self;
    }
}

impl Model for Track {
    ghost use Rattle.std.specs.Prelude.{List};
    ghost use Rattle.rail_track.specs.declared.section.Section.{Section};

    ghost Value = { List Section };

    ghost use Rattle.rail_track.specs.TrackFields.{IsTrackInside};

    ghost view = { λ track. track.sections };

    ghost invariant = { IsTrackInside };
}

/// A joint that is in two sections is closed.
impl ClosedJoints for Track {
    ghost use Rattle.rail_track.specs.Joints.{is_full};

    ghost is_closed = { is_full };

    fn is_closed(&self, joint: Name) -> bool {
        times(&self.uses, &joint) >= 2
    }
}

impl Track {
    ghost use Rattle.rail_track.specs.SectionRules.{section_tests, section_refusal};
    ghost use Rattle.rail_track.specs.Joints.{is_named, section_named, sections_at, section_has};
    ghost use Rattle.rail_track.specs.Lists.{without};
    ghost use Rattle.rail_track.specs.Passages.{has_passage};
    ghost use Rattle.rail_base.specs.FirstRefusals.{first_failing};
    ghost use Rattle.rail_track.specs.NetFaults.{Answers};
    ghost use Rattle.rail_track.specs.SoundTracks.{IsSoundTrack};
    ghost use Rattle.rail_base.specs.declared.refusals.Reason.TheVariants.{Unknown};
    ghost use Rattle.rail_track.specs.declared.section.NetFault.TheVariants.{Refused};

    /// A track without sections. It takes no memory.
    pub fn new(alloc: Global) -> Track
        ensures empty { result ≡ [] }
        ensures sound { IsSoundTrack result }
    {
        Track {
            sections: Roll::new(alloc),
            uses: IndexMap::new(alloc),
        }
    }

    /// The sections in order.
    pub fn sections(&self) -> &[Section]
        ensures sections { result.now ≡ self.now }
        ensures sound { IsSoundTrack self.now }
    {
        let _ = &self.uses;
        self.sections.as_slice()
    }

    /// The section of this name.
    pub fn section(&self, name: Name) -> Option<&Section>
        ensures { option_copied result ≡ section_named name self.now }
    {
        self.sections.get(&name)
    }

    /// Whether a section has this name.
    pub fn has_section(&self, name: Name) -> bool
        ensures { result ≡ list_any (is_named name) self.now }
    {
        self.sections.contains(&name)
    }

    /// The index of the section of this name in the list of the sections, from 0.
    pub fn section_index(&self, name: Name) -> Option<usize>
        ensures { result ≡ position (is_named name) self.now }
    {
        self.sections.index_of(&name)
    }

    /// The number of sections that the joint is in.
    pub fn sections_at(&self, joint: Name) -> u32
        ensures { result ≡ sections_at self.now joint }
    {
        times(&self.uses, &joint)
    }

    /// Whether the section of this name has the joint.
    pub fn section_has(&self, name: Name, joint: Name) -> bool
        ensures { result ≡ section_has self.now name joint }
    {
        match self.sections.get(&name) {
            Some(section) => has_joint(section, joint),
            None => false,
        }
    }

    /// Makes room at once for so many more sections, and for as many joints, since most joints are in two sections. It fails
    /// only for want of memory.
    pub fn reserve(&mut self, sections: usize) -> Result<(), AllocError>
        ensures { self.new ≡ self.old }
    {
        self.uses.reserve(sections)?;
        self.sections.reserve(sections)
    }

    /// Adds a section last.
    ///
    /// It is refused, by the first of these that holds, as too many, past the limit on sections, at
    /// step 0; as out of range, at the number of the key: 3 for the length, 4 for the speed, 5 for a
    /// number of joints that is not the kind's; as repeated, where a section has the name, at step 1;
    /// as crowded, where a joint stands twice in the section or is in two sections already, at the
    /// number of the first such joint.
    pub fn add_section(&mut self, _alloc: Global, section: Section) -> Result<(), NetFault>
        ensures accepted { OnOk result (section_refusal self.old section ≡ None) }
        ensures added { OnOk result (self.new ≡ self.old ++ section ∷ []) }
        ensures refused { IfErr result (Answers (section_refusal self.old section)) }
        ensures unchanged { OnErr result (self.new ≡ self.old) }
        ensures sound { IsSoundTrack self.new }
    {
        if let Some(fault) = self.refusal(&section, self) {
            return Err(fault);
        }
        let index = self.sections.as_slice().len();
        self.uses.reserve(section.joints.as_slice().len())?;
        self.sections.push(section)?;
        count_each(
            &mut self.uses,
            self.sections.as_slice()[index].joints.as_slice(),
        );
        Ok(())
    }

    /// Puts a section back at the index where it stood, from 0: the track was sound with it. It fails only
    /// for want of memory, and then gives the section back.
    pub fn put_back(&mut self, index: usize, section: Section) -> Result<(), AllocFailed<Section>>
        requires within { index ≤ length self.old }
        requires sound { IsSoundTrack (insert self.old index section) }
        ensures put { OnOk result (self.new ≡ insert self.old index section) }
        ensures unchanged { OnErr result (self.new ≡ self.old) }
        ensures returned { IfErr result (λ refused. refused.value ≡ section) }
    {
        if self.uses.reserve(section.joints.as_slice().len()).is_err() {
            return Err(AllocFailed { value: section });
        }
        match self.sections.insert(index, section) {
            Ok(()) => {}
            Err(refused) => return Err(refused),
        }
        count_each(
            &mut self.uses,
            self.sections.as_slice()[index].joints.as_slice(),
        );
        Ok(())
    }

    /// Takes the section of this name out. The others keep their order. It takes no memory. It is
    /// refused as unknown, at step 0, exactly where no section has the name.
    pub fn remove_section(&mut self, name: Name) -> Result<Section, NetFault>
        ensures removed { IfOk result (λ section. section_named name self.old ≡ Some section) }
        ensures rest { OnOk result (self.new ≡ without (is_named name) self.old) }
        ensures absent { OnErr result (section_named name self.old ≡ None) }
        ensures refused { IfErr result (λ fault. fault ≡ Refused Unknown 0) }
        ensures unchanged { OnErr result (self.new ≡ self.old) }
        ensures sound { IsSoundTrack self.new }
    {
        let Some(section) = self.sections.remove(&name) else {
            return Err(NetFault::Refused {
                reason: Reason::Unknown,
                step: 0,
            });
        };
        discount_each(&mut self.uses, section.joints.as_slice());
        Ok(section)
    }

    /// Whether the section of this name has a passage from the one joint to the other, which is so both
    /// ways or neither. An unknown section has none.
    pub fn passage(&self, section: Name, from: Name, to: Name) -> bool
        ensures { result ≡ has_passage self.now section from to }
    {
        match self.sections.get(&section) {
            Some(section) => leads(section, from, to),
            None => false,
        }
    }

    /// Why a new section is refused beside those of the track, where the rule says which joints take
    /// no further one. The first reason counts, in the order that `add_section` gives.
    pub fn refusal<J: ClosedJoints>(&self, section: &Section, rule: &J) -> Option<NetFault>
        ensures { result ≡ first_failing (section_tests self.now (J.is_closed rule.now) section.now) }
    {
        let joints = section.joints.as_slice();
        if self.sections.as_slice().len() >= SECTIONS {
            return Some(NetFault::Refused {
                reason: Reason::TooMany,
                step: 0,
            });
        }
        if section.length < 1 || section.length > SECTION_LENGTH {
            return Some(NetFault::Refused {
                reason: Reason::Range,
                step: 3,
            });
        }
        if section.speed < 1 || section.speed > SPEED {
            return Some(NetFault::Refused {
                reason: Reason::Range,
                step: 4,
            });
        }
        if joints.len() != joint_count(section.kind) {
            return Some(NetFault::Refused {
                reason: Reason::Range,
                step: 5,
            });
        }
        if self.sections.contains(&section.name) {
            return Some(NetFault::Refused {
                reason: Reason::Repeated,
                step: 1,
            });
        }
        joint_refusal(joints, rule)
    }
}
