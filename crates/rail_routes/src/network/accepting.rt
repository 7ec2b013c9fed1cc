//! Why an item is refused, by the first test that fails.
ghost use Rattle.std.specs.Prelude.{◌≡◌, ◌+◌, ◌<◌, ◌^◌, ◌&&◌, not, length, Some, None, if◌then◌else◌};
ghost use Rattle.std.specs.List.{list_any};
ghost use Rattle.rail_track.specs.declared.section.NetFault.TheVariants.{Refused};
ghost use Rattle.rail_routes.specs.PostRules.{time_key, has_times};

use super::Network;
use super::leading::{repeat_refusal, way_refusal};
use crate::items::{Post, PostRole, Route, Step, Turn};
use rail_base::limits::{
    APPROACH, OVERLAP_SECTIONS, POSTS, ROUTE_SECTIONS, ROUTES, SETTING, TURN_TIME, TURNS, WATCHING,
};
use rail_base::{Name, Reason};
use rail_track::{NetFault, Section, times};

/// A refusal for this reason at this step.
fn refused(reason: Reason, step: u32) -> Option<NetFault>
    ensures { result ≡ Some (Refused reason step) }
{
    Some(NetFault::Refused { reason, step })
}

impl Network {
    ghost use Rattle.rail_track.specs.Joints.{has_joint};
    ghost use Rattle.rail_routes.specs.Net.{posts, is_post, stands_at};
    ghost use Rattle.rail_routes.specs.PostRules.{post_refusal, stands_well, has_joint_ahead, is_taken, is_guarded, is_astray};
    ghost use Rattle.rail_routes.specs.RouteRules.{route_refusal, rule_tests, misses_section};
    ghost use Rattle.rail_base.specs.FirstRefusals.{first_failing};
    ghost use Rattle.rail_track.specs.Joints.{is_named};
    ghost use Rattle.rail_routes.specs.declared.items.Step.{Step};
    ghost use Rattle.rail_routes.specs.TurnRules.{turn_refusal, turns_well};
    ghost use Rattle.rail_routes.specs.Uses.{section_removal, post_removal, is_section_used, is_post_used, turns_at, goes_to, claims};
    ghost use Rattle.rail_routes.specs.declared.items.Post.{Post};
    ghost use Rattle.rail_base.specs.NameForms.{same_name};
    ghost use Rattle.rail_base.specs.declared.refusals.Reason.TheVariants.{InUse};

    /// Whether a post of any role has the name.
    fn has_post(&self, name: Name) -> bool
        ensures { result ≡ list_any (is_post name) (posts self.now) }
    {
        self.portals.contains(name) || self.signals.contains(name) || self.boards.contains(name)
    }

    /// Whether a post of any role stands at the joint.
    fn has_post_at(&self, joint: Name) -> bool
        ensures { result ≡ list_any (stands_at joint) (posts self.now) }
    {
        self.portals.stands_at(joint)
            || self.signals.stands_at(joint)
            || self.boards.stands_at(joint)
    }

    /// Why a new post is refused.
    pub(super) fn post_refusal(&self, post: &Post) -> Option<NetFault>
        ensures { result ≡ post_refusal self.now post.now }
    {
        let timed = has_times(post.role);
        let key = time_key(post.role);
        if self.count_of_posts() >= POSTS {
            return refused(Reason::TooMany, 0);
        }
        if timed && (post.setting < 1 || post.setting > SETTING) {
            return refused(Reason::Range, key);
        }
        if timed && post.watching > WATCHING {
            return refused(Reason::Range, key + 1);
        }
        if timed && post.approach > APPROACH {
            return refused(Reason::Range, key + 2);
        }
        if self.has_post(post.name) {
            return refused(Reason::Repeated, 1);
        }
        if self.is_astray(post) {
            return refused(Reason::Unknown, 3);
        }
        if !self.stands_well(post) || self.is_taken(post) {
            return refused(Reason::PostPlace, 0);
        }
        None
    }

    /// The number of posts of all roles.
    fn count_of_posts(&self) -> usize
        ensures { result ≡ length self.now.portals + length self.now.signals + length self.now.boards }
    {
        let _ = &self.claimed;
        self.portals.as_slice().len() + self.signals.as_slice().len() + self.boards.as_slice().len()
    }

    /// Whether the section ahead of the post is none of the sections.
    fn is_astray(&self, post: &Post) -> bool
        ensures { result ≡ is_astray self.now.sections post.now }
    {
        match post.ahead {
            Some(ahead) => !self.track.has_section(ahead),
            None => false,
        }
    }

    /// Whether the post may stand at its joint.
    fn stands_well(&self, post: &Post) -> bool
        ensures { result ≡ stands_well self.now.sections post.now }
    {
        let sections = self.track.sections_at(post.joint);
        match post.role {
            PostRole::Portal => sections == 1,
            PostRole::Signal => sections == 2 && self.has_joint_ahead(post),
            PostRole::Board => sections == 1 || sections == 2,
        }
    }

    /// Whether the section ahead of the post has its joint.
    fn has_joint_ahead(&self, post: &Post) -> bool
        ensures { result ≡ has_joint_ahead self.now.sections post.now }
    {
        match post.ahead {
            Some(ahead) => self.track.section_has(ahead, post.joint),
            None => false,
        }
    }

    /// Whether another post has the place of this one.
    fn is_taken(&self, post: &Post) -> bool
        ensures { result ≡ is_taken self.now post.now }
    {
        match post.role {
            PostRole::Portal | PostRole::Board => {
                self.portals.stands_at(post.joint) || self.boards.stands_at(post.joint)
            }
            PostRole::Signal => self.is_guarded(post),
        }
    }

    /// Whether a signal at the joint has the same section ahead as this one.
    fn is_guarded(&self, post: &Post) -> bool
        ensures { result ≡ is_guarded self.now.signals post.now }
    {
        match post.ahead {
            Some(ahead) => self.signals.guards_at(post.joint, ahead),
            None => false,
        }
    }

    /// Why a new turn is refused.
    pub(super) fn turn_refusal(&self, turn: &Turn) -> Option<NetFault>
        ensures { result ≡ turn_refusal self.now turn.now }
    {
        if self.turns.as_slice().len() >= TURNS {
            return refused(Reason::TooMany, 0);
        }
        if turn.time > TURN_TIME {
            return refused(Reason::Range, 3);
        }
        if self.turns.contains(&(turn.arriving, turn.leaving)) {
            return refused(Reason::Repeated, 1);
        }
        if !self.has_post(turn.arriving) {
            return refused(Reason::Unknown, 1);
        }
        if !self.has_post(turn.leaving) {
            return refused(Reason::Unknown, 2);
        }
        if !self.turns_well(turn) {
            return refused(Reason::PostPlace, 0);
        }
        None
    }

    /// Whether the turn leads from a signal or board to another post, which is a signal.
    fn turns_well(&self, turn: &Turn) -> bool
        ensures { result ≡ turns_well self.now turn.now }
    {
        !self.portals.contains(turn.arriving)
            && self.signals.contains(turn.leaving)
            && turn.arriving != turn.leaving
    }

    /// Why a new route is refused.
    pub(super) fn route_refusal(&self, route: &Route) -> Option<NetFault>
        ensures { result ≡ route_refusal self.now route.now }
    {
        let steps = route.steps.as_slice();
        if self.routes.as_slice().len() >= ROUTES {
            return refused(Reason::TooMany, 0);
        }
        if steps.is_empty() || steps.len() > ROUTE_SECTIONS {
            return refused(Reason::Range, 4);
        }
        if route.overlap.as_slice().len() > OVERLAP_SECTIONS {
            return refused(Reason::Range, 5);
        }
        if self.routes.contains(&route.name) {
            return refused(Reason::Repeated, 1);
        }
        self.rule_refusal(route)
    }

    /// Which rule a route breaks, whose numbers of steps are in range.
    fn rule_refusal(&self, route: &Route) -> Option<NetFault>
        requires path { length route.now.steps < 2 ^ 16 }
        requires overlap { length route.now.overlap < 2 ^ 16 }
        ensures { result ≡ first_failing (rule_tests self.now route.now) }
    {
        let steps = route.steps.as_slice();
        let overlap = route.overlap.as_slice();
        let Some(begin) = self.post(route.from) else {
            return refused(Reason::Unknown, 2);
        };
        let Some(end) = self.post(route.to) else {
            return refused(Reason::Unknown, 3);
        };
        if self.misses_section(steps) {
            return refused(Reason::Unknown, 4);
        }
        if self.misses_section(overlap) {
            return refused(Reason::Unknown, 5);
        }
        match repeat_refusal(steps, overlap) {
            Some(fault) => Some(fault),
            None => way_refusal(&self.track, &begin, &end, steps, overlap),
        }
    }

    /// Whether a step runs over none of the sections.
    fn misses_section(&self, steps: &[Step]) -> bool
        ensures { result ≡ misses_section self.now.sections steps.now }
    {
        steps
            .iter()
            .any(|step| !self.track.has_section(step.section))
    }

    /// Why a post is not taken out.
    pub(super) fn post_removal(&self, name: Name) -> Option<NetFault>
        ensures { result ≡ post_removal self.now name }
    {
        if !self.has_post(name) {
            return refused(Reason::Unknown, 0);
        }
        if self.is_post_used(name) {
            return refused(Reason::InUse, 0);
        }
        None
    }

    /// Whether a turn or a route names the post.
    fn is_post_used(&self, name: Name) -> bool
        ensures { result ≡ is_post_used self.now name }
    {
        self.turns_at(name) || self.goes_to(name)
    }

    /// Whether a turn names the post.
    fn turns_at(&self, name: Name) -> bool
        ensures { result ≡ list_any (turns_at name) self.now.turns }
    {
        times(&self.turned, &name) > 0
    }

    /// Whether a route begins or ends at the post.
    fn goes_to(&self, name: Name) -> bool
        ensures { result ≡ list_any (goes_to name) self.now.routes }
    {
        times(&self.routed, &name) > 0
    }

    /// Why a section is not taken out.
    pub(super) fn section_removal(&self, name: Name) -> Option<NetFault>
        ensures { result ≡ section_removal self.now name }
    {
        match self.track.section(name) {
            Some(section) => self.use_refusal(section),
            None => refused(Reason::Unknown, 0),
        }
    }

    /// Why a section of the network is not taken out.
    fn use_refusal(&self, section: &Section) -> Option<NetFault>
        ensures { result ≡ (if is_section_used self.now section.now then Some (Refused InUse 0) else None) }
    {
        if self.carries_post(section) || self.is_claimed(section.name) {
            refused(Reason::InUse, 0)
        } else {
            None
        }
    }

    /// Whether a route has the section in path or overlap.
    fn is_claimed(&self, name: Name) -> bool
        ensures { result ≡ list_any (claims name) self.now.routes }
    {
        times(&self.claimed, &name) > 0
    }

    /// Whether a post stands at a joint of the section.
    fn carries_post(&self, section: &Section) -> bool
        ensures { result ≡ list_any (λ (post : Post). has_joint post.joint section.now) (posts self.now) }
    {
        self.has_post_on(section.joints.as_slice())
    }

    /// Whether a post stands at one of the joints.
    fn has_post_on(&self, joints: &[Name]) -> bool
        ensures { result ≡ list_any (λ joint. list_any (stands_at joint) (posts self.now)) joints.now }
    {
        joints.iter().any(|joint| self.has_post_at(*joint))
    }
}

/// The key of the setting time, behind which the two other times come.
fn time_key(role: PostRole) -> u32
    ensures key { result ≡ time_key role }
    ensures small { result < 2 ^ 8 }
{
    match role {
        PostRole::Portal => 3,
        PostRole::Signal => 4,
        PostRole::Board => 0,
    }
}

/// Whether a post of the role has times of its own.
fn has_times(role: PostRole) -> bool
    ensures { result ≡ has_times role }
{
    match role {
        PostRole::Portal | PostRole::Signal => true,
        PostRole::Board => false,
    }
}
