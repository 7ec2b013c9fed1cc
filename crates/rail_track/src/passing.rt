//! The joints of a section, and the passages between them.

ghost use Rattle.std.specs.Prelude.{◌≡◌};
ghost use Rattle.std.specs.List.{list_any};
ghost use Rattle.rail_track.specs.Joints.{has_joint};
ghost use Rattle.rail_track.specs.Passages.{leads, passages};

use crate::section::{Section, SectionKind};

/// Whether the section has the joint.
pub(crate) fn has_joint(section: &Section, joint: Name) -> bool
    ensures { result ≡ has_joint joint section.now }
{
    section
        .joints
        .as_slice()
        .iter()
        .any(|other| joint == *other)
}

use rail_base::Name;

/// Whether the section has a passage from the one joint to the other.
pub(crate) fn leads(section: &Section, from: Name, to: Name) -> bool
    ensures { result ≡ list_any (leads from to) (passages section.now.kind section.now.joints) }
{
    match (section.kind, section.joints.as_slice()) {
        (SectionKind::Plain, [p, q]) => joins(*p, *q, from, to),
        (SectionKind::Points, [tip, p, q]) => {
            joins(*tip, *p, from, to) || joins(*tip, *q, from, to)
        }
        (SectionKind::Crossing, [p, q, r, s]) => {
            joins(*p, *q, from, to) || joins(*r, *s, from, to)
        }
        (SectionKind::Slip, [p, q, r, s]) => {
            joins(*p, *q, from, to)
                || joins(*r, *s, from, to)
                || joins(*p, *s, from, to)
                || joins(*r, *q, from, to)
        }
        _ => false,
    }
}

/// Whether the passage between these two ends leads from the one joint to the other, either way.
fn joins(end: Name, other_end: Name, from: Name, to: Name) -> bool
    ensures { result ≡ leads from to (end, other_end) }
{
    from == end && to == other_end || from == other_end && to == end
}
