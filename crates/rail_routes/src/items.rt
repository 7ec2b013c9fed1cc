//! The items of a network: posts, turns, and routes with their steps.

use rail_base::{Name, Seq};
use rail_track::Keyed;

/// What a post is.
#[derive(Clone, Copy, Debug, PartialEq, Eq)]
pub enum PostRole {
    /// Trains enter and leave here. It stands at a joint of one section, which is ahead of it.
    Portal,
    /// It stands at a joint of two sections, one of which is ahead of it.
    Signal,
    /// Routes may end here, and none begins.
    Board,
}

/// A portal, signal or board.
#[derive(Clone, Copy, Debug, PartialEq, Eq)]
pub struct Post {
    pub name: Name,
    pub role: PostRole,
    pub joint: Name,
    /// The section ahead of a signal. A portal has the one section of its joint ahead, a board none.
    pub ahead: Option<Name>,
    /// Time for clearing the signal, in tenths of a second; 0 for a board, as the other two.
    pub setting: u32,
    /// Signal watching time, in tenths of a second.
    pub watching: u32,
    /// Approach time of a train that passes, in tenths of a second.
    pub approach: u32,
}

/// A change of direction: a train that arrived at the one post may leave from the other.
#[derive(Clone, Copy, Debug, PartialEq, Eq)]
pub struct Turn {
    pub arriving: Name,
    pub leaving: Name,
    /// Least standing time for the turn, in tenths of a second.
    pub time: u32,
}

/// One section of a route, from the joint where it is entered to that where it is left.
#[derive(Clone, Copy, Debug, PartialEq, Eq)]
pub struct Step {
    pub section: Name,
    pub from: Name,
    pub to: Name,
}

/// A way from a portal or signal to a post, over its steps in order, which are its path.
#[derive(Debug)]
pub struct Route {
    pub name: Name,
    pub from: Name,
    pub to: Name,
    pub steps: Seq<Step>,
    /// The steps beyond the last post that are held together with the path, as a safety distance. They go on where the path
    /// ends, and a route to a portal has none.
    pub overlap: Seq<Step>,
}

impl Drop for Route {
    fn drop(self) {
        let Route {
            name: _name,
            from: _from,
            to: _to,
            steps: _steps,
            overlap: _overlap,
        } = self;
    }
}

impl Keyed<Name> for Post {
    ghost key_of = { λ post. post.name };

    fn key(&self) -> Name {
        self.name
    }
}

impl Keyed<(Name, Name)> for Turn {
    ghost key_of = { λ turn. (turn.arriving, turn.leaving) };

    fn key(&self) -> (Name, Name) {
        (self.arriving, self.leaving)
    }
}

impl Keyed<Name> for Step {
    ghost key_of = { λ step. step.section };

    fn key(&self) -> Name {
        self.section
    }
}

impl Keyed<Name> for Route {
    ghost key_of = { λ route. route.name };

    fn key(&self) -> Name {
        self.name
    }
}
