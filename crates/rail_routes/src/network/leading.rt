//! Which step of a route is refused.
ghost use Rattle.std.specs.Prelude.{◌≡◌, ◌+◌, ◌<◌, ◌^◌, ◌&&◌, ◌||◌, not, [], ◌++◌, length};
ghost use Rattle.std.specs.List.{list_any};
ghost use Rattle.rail_base.specs.FirstRefusals.{first_failing};
ghost use Rattle.rail_base.specs.NameForms.{same_name};
ghost use Rattle.rail_routes.specs.declared.items.Step.{Step};
ghost use Rattle.rail_routes.specs.Net.{guards};
ghost use Rattle.rail_routes.specs.RouteRules.{repeat_tests, repeats_behind, way_from, path_from, overlap_from, step_tests, lead_tests, begins, ends, leads_from, is_beyond};

use crate::items::{Post, PostRole, Step};
use rail_base::{Name, Reason};
use rail_track::{NetFault, Track};

/// The first step of path and overlap whose section occurred before.
pub(super) fn repeat_refusal(steps: &[Step], overlap: &[Step]) -> Option<NetFault>
    requires path { length steps.now < 2 ^ 16 }
    requires overlap { length overlap.now < 2 ^ 16 }
    ensures { result ≡ first_failing (repeat_tests steps.now overlap.now) }
{
    match repeat_behind(&[], steps) {
        Some(fault) => Some(fault),
        None => repeat_behind(steps, overlap),
    }
}

/// The first of the steps whose section occurred before, among the first ones or since.
fn repeat_behind(first: &[Step], steps: &[Step]) -> Option<NetFault>
    requires first { length first.now < 2 ^ 16 }
    requires steps { length steps.now < 2 ^ 16 }
    ensures { result ≡ first_failing (repeats_behind first.now steps.now) }
{
    // A route has at most 40 steps, so that comparing each with each is cheap.
    for (index, step) in steps.iter().enumerate() {
        if has_occurred(first, &steps[..index], step.section) {
            return Some(NetFault::Refused {
                reason: Reason::RouteRepeat,
                step: (first.len() + index) as u32 + 1,
            });
        }
    }
    None
}

/// Whether one of the first steps, or of those since, runs over the section.
fn has_occurred(first: &[Step], since: &[Step], section: Name) -> bool
    ensures { result ≡ (list_any (λ (other : Step). same_name section other.section) first.now
        || list_any (λ (other : Step). same_name section other.section) since.now) }
{
    occurs(first, section) || occurs(since, section)
}

/// Whether a step runs over the section.
fn occurs(steps: &[Step], section: Name) -> bool
    ensures { result ≡ list_any (λ (other : Step). same_name section other.section) steps.now }
{
    steps.iter().any(|other| section == other.section)
}

/// The first step of path and overlap that does not lead on, from the one post to the other and on from there.
pub(super) fn way_refusal(
    track: &Track,
    begin: &Post,
    end: &Post,
    steps: &[Step],
    overlap: &[Step],
) -> Option<NetFault>
    requires path { length steps.now < 2 ^ 16 }
    requires overlap { length overlap.now < 2 ^ 16 }
    ensures { result ≡ first_failing (way_from begin.now end.now track.now steps.now overlap.now) }
{
    match path_refusal(track, begin, end, steps) {
        Some(fault) => Some(fault),
        None => overlap_refusal(track, end, steps.len() as u32 + 1, overlap),
    }
}

/// The first step that does not lead on from the one post to the other.
fn path_refusal(track: &Track, begin: &Post, end: &Post, steps: &[Step]) -> Option<NetFault>
    requires { length steps.now < 2 ^ 16 }
    ensures { result ≡ first_failing (path_from begin.now end.now track.now steps.now) }
{
    if !begins(track, begin, steps) {
        return Some(NetFault::Refused {
            reason: Reason::RouteBroken,
            step: 1,
        });
    }
    step_refusal(track, end, begin.joint, steps)
}

/// Whether the steps begin with the section ahead of the post.
fn begins(track: &Track, post: &Post, steps: &[Step]) -> bool
    ensures { result ≡ begins post.now track.now steps.now }
{
    match (post.role, steps.first()) {
        (PostRole::Portal, Some(step)) => track.section_has(step.section, post.joint),
        (PostRole::Signal, Some(step)) => guards(post, step.section),
        _ => false,
    }
}

/// Whether the post has this section ahead by name.
fn guards(post: &Post, section: Name) -> bool
    ensures { result ≡ guards section post.now }
{
    match post.ahead {
        Some(ahead) => section == ahead,
        None => false,
    }
}

/// The first step that does not lead on from the joint, or at the end not to the post.
fn step_refusal(track: &Track, end: &Post, start: Name, steps: &[Step]) -> Option<NetFault>
    requires { length steps.now < 2 ^ 16 }
    ensures { result ≡ first_failing (step_tests track.now end.now 1 start steps.now) }
{
    let mut joint = start;
    for (index, step) in steps.iter().enumerate() {
        if leads_wrong(track, end, joint, step, index + 1 == steps.len()) {
            return Some(NetFault::Refused {
                reason: Reason::RouteBroken,
                step: index as u32 + 1,
            });
        }
        joint = step.to;
    }
    None
}

/// Whether the step does not lead on from the joint, or is the last and does not end at the post.
fn leads_wrong(track: &Track, end: &Post, joint: Name, step: &Step, is_last: bool) -> bool
    ensures { result ≡ not (leads_from track.now joint step.now && (not is_last || ends end.now step.now)) }
{
    !(leads_on(track, joint, step) && (!is_last || ends(end, step)))
}

/// Whether the step leads on from the joint, over a passage of its section.
fn leads_on(track: &Track, joint: Name, step: &Step) -> bool
    ensures { result ≡ leads_from track.now joint step.now }
{
    joint == step.from && track.passage(step.section, step.from, step.to)
}

/// Whether the step ends at the joint of the post, and not in the section ahead of it.
fn ends(post: &Post, step: &Step) -> bool
    ensures { result ≡ ends post.now step.now }
{
    post.joint == step.to && !guards(post, step.section)
}

/// The first step of an overlap that does not lead on from the post. Its first step has this number.
fn overlap_refusal(track: &Track, end: &Post, first: u32, overlap: &[Step]) -> Option<NetFault>
    requires first { first < 2 ^ 17 }
    requires overlap { length overlap.now < 2 ^ 16 }
    ensures { result ≡ first_failing (overlap_from end.now track.now first overlap.now) }
{
    if is_beyond(end.role, overlap) {
        return Some(NetFault::Refused {
            reason: Reason::RouteBroken,
            step: first,
        });
    }
    lead_refusal(track, first, end.joint, overlap)
}

/// Whether an overlap lies behind a portal.
fn is_beyond(role: PostRole, overlap: &[Step]) -> bool
    ensures { result ≡ is_beyond role overlap.now }
{
    match role {
        PostRole::Portal => !overlap.is_empty(),
        PostRole::Signal | PostRole::Board => false,
    }
}

/// The first step that does not lead on from the joint. The first of all has this number.
fn lead_refusal(track: &Track, first: u32, start: Name, steps: &[Step]) -> Option<NetFault>
    requires first { first < 2 ^ 17 }
    requires steps { length steps.now < 2 ^ 16 }
    ensures { result ≡ first_failing (lead_tests track.now first start steps.now) }
{
    let mut joint = start;
    for (index, step) in steps.iter().enumerate() {
        if !leads_on(track, joint, step) {
            return Some(NetFault::Refused {
                reason: Reason::RouteBroken,
                step: first + index as u32,
            });
        }
        joint = step.to;
    }
    None
}
