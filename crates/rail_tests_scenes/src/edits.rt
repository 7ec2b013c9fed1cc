//! Edits of a scene and of a network: the sections that edit files lead to, and items of each kind that stand where they
//! stood once their removal is undone. What edit files are refused for is in the rows of `rail_rows`.
mod files;

use crate::scenes::TRACK;
use files::FILES;
use rail_base::Name;
use rail_edit::{Edit, EditFault, Editor};
use rail_edit_file::{edit_network, edit_scene};
use rail_routes::{Network, Post, Route, Turn};
use rail_track::{NetFault, Section};
use std::alloc::Global;
use std::str;

#[test]
fn answers_edit_files_by_the_rules(rt: HostRuntime) {
    let other = first_other(rt.alloc());
    assert!(rt; other.is_none(), "{other:?}");
}

/// The first of the files that is answered otherwise than its first line says.
fn first_other(alloc: Global) -> Option<&'static str> {
    for case in FILES.split("== ").skip(1) {
        if !holds(alloc, case).unwrap_or(false) {
            return Some(case);
        }
    }
    None
}

/// Whether the file is answered as its first line says, by the names of the sections after it.
fn holds(alloc: Global, case: &str) -> Option<bool> {
    let (want, text) = case.split_once("\n")?;
    if text.len() > 10_000 {
        return None;
    }
    let scene = edit_scene(alloc, TRACK.as_bytes(), text.as_bytes()).ok()?;
    let mut told = String::new(alloc);
    push_sections(&mut told, scene.network.sections())?;
    Some(told.as_str() == want)
}

/// A network with at least two items in each list.
const LISTS: &str = "\
add section M plain 50 90 m n
add section W plain 50 90 a b
add section X plain 50 90 b c
add section Y plain 50 90 y z
add portal 0 c 10 0 0
add portal 1 a 10 0 0
add signal 3 b X 10 0 0
add signal 2 b W 10 0 0
add board 5 y
add board 6 z
add turn 3 2 0
add turn 2 3 0
add route 7 1 0 a W b X c
add route 8 1 3 a W b
";

/// The first item of each list is taken out, with what uses it.
const REMOVALS: &str = "\
remove route 7
remove route 8
remove turn 3 2
remove turn 2 3
remove post 3
remove post 0
remove post 5
remove section M
";

/// What is undone, and then made again.
const UNDOS: &str = "undo\nundo\nundo\nundo\nundo\nundo\nundo\nundo\n";

const REDOS: &str = "redo\nredo\nredo\nredo\nredo\nredo\nredo\nredo\n";

#[test]
fn puts_items_back_where_they_stood(rt: HostRuntime) {
    let alloc = rt.alloc();
    let all = "M W X Y / 0 1 / 3 2 / 5 6 / 3 2 / 7 8 / ";
    let are_listed = [
        is_listed_after(alloc, UNDOS, "", all),
        is_listed_after(alloc, UNDOS, REDOS, "W X Y / 1 / 2 / 6 / / / "),
    ];
    assert_eq!(rt; are_listed, [Some(true); 2]);
}

/// Whether a network has these names after the removals and these edits.
fn is_listed_after(alloc: Global, first: &str, second: &str, want: &str) -> Option<bool> {
    let names = listing_after(alloc, first, second)?;
    Some(names.as_str() == want)
}

/// The names of what a network has after the removals and these edits: sections, portals, signals, boards, the
/// posts at which the turns arrive, and routes.
fn listing_after(alloc: Global, first: &str, second: &str) -> Option<String> {
    let mut text = String::new(alloc);
    for lines in [LISTS, REMOVALS, first, second] {
        text.push_str(lines).ok()?;
    }
    if text.len() > 10_000 {
        return None;
    }
    let network = edit_network(alloc, Network::new(alloc), text.as_bytes()).ok()?;
    let mut names = String::new(alloc);
    push_sections(&mut names, network.sections())?;
    push_posts(&mut names, network.portals())?;
    push_posts(&mut names, network.signals())?;
    push_posts(&mut names, network.boards())?;
    push_turns(&mut names, network.turns())?;
    push_routes(&mut names, network.routes())?;
    Some(names)
}

fn push_sections(names: &mut String, sections: &[Section]) -> Option<()> {
    for section in sections {
        push_name(names, section.name)?;
    }
    names.push_str("/ ").ok()
}

fn push_posts(names: &mut String, posts: &[Post]) -> Option<()> {
    for post in posts {
        push_name(names, post.name)?;
    }
    names.push_str("/ ").ok()
}

fn push_turns(names: &mut String, turns: &[Turn]) -> Option<()> {
    for turn in turns {
        push_name(names, turn.arriving)?;
    }
    names.push_str("/ ").ok()
}

fn push_routes(names: &mut String, routes: &[Route]) -> Option<()> {
    for route in routes {
        push_name(names, route.name)?;
    }
    names.push_str("/ ").ok()
}

fn push_name(names: &mut String, name: Name) -> Option<()> {
    names.push_str(str::from_utf8(name.as_bytes()).ok()?).ok()?;
    names.push_str(" ").ok()
}

/// What comes of a removal, what is answered to redoing before it, undoing twice and redoing, and how many boards there
/// are after each change.
type Edited = (Result<(), NetFault>, [Result<(), EditFault>; 4], [usize; 3]);

/// The calls of an editor one by one: what was removed comes back, and is removed again.
#[test]
fn edits_call_by_call(rt: HostRuntime) {
    let answers = [
        Err(EditFault::NothingToRedo),
        Ok(()),
        Err(EditFault::NothingToUndo),
        Ok(()),
    ];
    assert!(rt; edited(rt.alloc()) == Some((Ok(()), answers, [1, 2, 1])));
}

/// What comes of edits where one of two boards is removed.
fn edited(alloc: Global) -> Option<Edited> {
    let board = Name::read(b"6")?;
    let network = edit_network(alloc, Network::new(alloc), LISTS.as_bytes()).ok()?;
    let mut editor = Editor::new(alloc, network);
    let nothing_undone = editor.redo(alloc);
    let removed = editor.apply(alloc, Edit::RemovePost(board));
    let left = editor.network().boards().len();
    let undone = editor.undo(alloc);
    let all = editor.network().boards().len();
    let nothing_done = editor.undo(alloc);
    let redone = editor.redo(alloc);
    Some((
        removed,
        [nothing_undone, undone, nothing_done, redone],
        [left, all, editor.into_network().boards().len()],
    ))
}

#[test]
fn refuses_a_board_without_a_section(rt: HostRuntime) {
    let network = Network::new(rt.alloc());
    assert!(rt; edit_network(rt.alloc(), network, b"add board X y\n").is_err());
}
