//! The joints of a new section: how many it needs, and which of them are refused.

ghost use Rattle.std.specs.Prelude.{◌≡◌, ◌≤◌, ◌||◌, length};
ghost use Rattle.rail_track.specs.SectionRules.{joint_count, joint_tests, stands_twice};
ghost use Rattle.rail_base.specs.FirstRefusals.{first_failing};

use crate::section::{NetFault, SectionKind};
use rail_base::{Name, Reason};

/// Which joints take no further section.
pub trait ClosedJoints {
    ghost use Rattle.std.specs.Prelude.{ℕ, Bool, List};

    ghost is_closed: { Self → List ℕ → Bool };

    /// Whether the joint takes no further section.
    fn is_closed(&self, joint: Name) -> bool
        ensures { result ≡ is_closed self.now joint };
}

/// How many joints a section of the kind has.
pub fn joint_count(kind: SectionKind) -> usize
    ensures { result ≡ joint_count kind }
{
    match kind {
        SectionKind::Plain => 2,
        SectionKind::Points => 3,
        SectionKind::Crossing | SectionKind::Slip => 4,
    }
}

/// Why a joint of a new section is refused: the first that stands twice among them or is closed.
pub(crate) fn joint_refusal<J: ClosedJoints>(joints: &[Name], rule: &J) -> Option<NetFault>
    requires { length joints.now ≤ 4 }
    ensures { result ≡ first_failing (joint_tests (J.is_closed rule.now) joints.now) }
{
    // A section has at most four joints, so that comparing each with each is cheap.
    for (index, joint) in joints.iter().enumerate() {
        if is_crowded(joints, *joint, rule) {
            return Some(NetFault::Refused {
                reason: Reason::JointCrowded,
                step: index as u32 + 1,
            });
        }
    }
    None
}

/// Whether the joint stands twice among the joints or is closed.
fn is_crowded<J: ClosedJoints>(joints: &[Name], joint: Name, rule: &J) -> bool
    ensures { result ≡ (stands_twice joints.now joint || J.is_closed rule.now joint) }
{
    stands_twice(joints, joint) || rule.is_closed(joint)
}

/// Whether the joint stands twice among the joints.
fn stands_twice(joints: &[Name], joint: Name) -> bool
    ensures { result ≡ stands_twice joints.now joint }
{
    joints.iter().filter(|other| joint == **other).count() >= 2
}
