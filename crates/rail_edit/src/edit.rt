//! The edits of a network, and what is kept to take each of them back.

use rail_base::Name;
use rail_routes::{Post, Route, Turn};
use rail_track::Section;

/// A change of a network: an item that is added last in its list, or one that is taken out.
#[derive(Debug, Drop)]
pub enum Edit {
    AddSection(Section),
    AddPost(Post),
    AddTurn(Turn),
    AddRoute(Route),
    RemoveSection(Name),
    RemovePost(Name),
    /// The turn from the one post to the other.
    RemoveTurn { arriving: Name, leaving: Name },
    RemoveRoute(Name),
}

/// What is kept of an edit that was made, so that it can be taken back: the name of what was added, or
/// what was removed with the index where it stood in its list, from 0.
#[derive(Debug, Drop)]
pub(crate) enum Kept {
    AddedSection(Name),
    AddedPost(Name),
    AddedTurn { arriving: Name, leaving: Name },
    AddedRoute(Name),
    RemovedSection { index: usize, section: Section },
    RemovedPost { index: usize, post: Post },
    RemovedTurn { index: usize, turn: Turn },
    RemovedRoute { index: usize, route: Route },
}
