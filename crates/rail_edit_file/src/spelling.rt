//! What the words of a line ask for.

ghost use Rattle.std.specs.Prelude.{◌≡◌, IsTrue, MatchOption, Some, None, cond, option_and_then, IfOk, IfSome};
ghost use Rattle.rail_text.specs.Lines.{words};
ghost use Rattle.rail_routes.specs.PostRules.{is_formed};
ghost use Rattle.rail_edit.specs.Edits.{is_formed_edit};
ghost use Rattle.rail_edit_file.specs.EditLines.{added, are_joints, asked_alone, board_in, changed, edit_line, is_formed_line, portal_in, removed, removed_between, removed_named, route_in, route_over, section_in, signal_in, way_from, times_in, turn_in};

use crate::lists::way_from;
use crate::words::{kind, number};
use rail_base::{Name, Seq};
use rail_edit::Edit;
use rail_routes::{Post, PostRole, Route, Turn};
use rail_text::{next_word, read_names};
use rail_track::{Section, SectionKind};
use std::alloc::{AllocError, Global};

/// What a line of an edit file asks for.
#[derive(Debug, Drop)]
pub(crate) enum EditLine {
    Change(Edit),
    Undo,
    Redo,
}

/// What a line asks for: `None` exactly where the line is not of an edit's form.
pub(crate) fn edit_line(alloc: Global, line: &[u8]) -> Result<Option<EditLine>, AllocError>
    ensures read { IfOk result (λ asked. asked ≡ edit_line (words line.now)) }
    ensures formed { IfOk result (λ asked. IfSome asked (λ asked. IsTrue (is_formed_line asked))) }
{
    let Some((verb, rest)) = next_word(line) else {
        return Ok(None);
    };
    let Some((part, args)) = next_word(rest) else {
        return Ok(asked_alone(verb));
    };
    match changed(alloc, verb, part, args)? {
        Some(edit) => Ok(Some(EditLine::Change(edit))),
        None => Ok(None),
    }
}

/// What a word alone asks for.
fn asked_alone(verb: &[u8]) -> Option<EditLine>
    ensures read { result ≡ asked_alone verb.now }
    ensures formed { IfSome result (λ asked. IsTrue (is_formed_line asked)) }
{
    if verb == b"undo".as_slice() {
        Some(EditLine::Undo)
    } else if verb == b"redo".as_slice() {
        Some(EditLine::Redo)
    } else {
        None
    }
}

/// The change of the network that the words ask for.
fn changed(alloc: Global, verb: &[u8], part: &[u8], args: &[u8]) -> Result<Option<Edit>, AllocError>
    ensures read { IfOk result (λ edit. edit ≡ changed verb.now part.now (words args.now)) }
    ensures formed { IfOk result (λ edit. IfSome edit (λ edit. IsTrue (is_formed_edit edit))) }
{
    if verb == b"add".as_slice() {
        added(alloc, part, args)
    } else if verb == b"remove".as_slice() {
        Ok(removed(part, args))
    } else {
        Ok(None)
    }
}

/// The item that is added.
fn added(alloc: Global, part: &[u8], args: &[u8]) -> Result<Option<Edit>, AllocError>
    ensures read { IfOk result (λ edit. edit ≡ added part.now (words args.now)) }
    ensures formed { IfOk result (λ edit. IfSome edit (λ edit. IsTrue (is_formed_edit edit))) }
{
    if part == b"section".as_slice() {
        Ok(section_in(alloc, args)?.map(Edit::AddSection))
    } else if part == b"portal".as_slice() {
        Ok(portal_in(args).map(Edit::AddPost))
    } else if part == b"signal".as_slice() {
        Ok(signal_in(args).map(Edit::AddPost))
    } else if part == b"board".as_slice() {
        Ok(board_in(args).map(Edit::AddPost))
    } else if part == b"turn".as_slice() {
        Ok(turn_in(args).map(Edit::AddTurn))
    } else if part == b"route".as_slice() {
        Ok(route_in(alloc, args)?.map(Edit::AddRoute))
    } else {
        Ok(None)
    }
}

/// The item that is taken out.
fn removed(part: &[u8], args: &[u8]) -> Option<Edit>
    ensures read { result ≡ removed part.now (words args.now) }
    ensures formed { IfSome result (λ edit. IsTrue (is_formed_edit edit)) }
{
    let (first, rest) = next_word(args)?;
    let first = Name::read(first)?;
    match next_word(rest) {
        None => removed_named(part, first),
        Some((second, rest)) => {
            if next_word(rest).is_some() {
                return None;
            }
            removed_between(part, first, second)
        }
    }
}

/// The item of this part between two posts that is taken out.
fn removed_between(part: &[u8], arriving: Name, leaving: &[u8]) -> Option<Edit>
    ensures read { result ≡ removed_between part.now arriving leaving.now }
    ensures formed { IfSome result (λ edit. IsTrue (is_formed_edit edit)) }
{
    if part == b"turn".as_slice() {
        Some(Edit::RemoveTurn {
            arriving,
            leaving: Name::read(leaving)?,
        })
    } else {
        None
    }
}

/// The item of this part and name that is taken out.
fn removed_named(part: &[u8], name: Name) -> Option<Edit>
    ensures read { result ≡ removed_named part.now name }
    ensures formed { IfSome result (λ edit. IsTrue (is_formed_edit edit)) }
{
    if part == b"section".as_slice() {
        Some(Edit::RemoveSection(name))
    } else if part == b"post".as_slice() {
        Some(Edit::RemovePost(name))
    } else if part == b"route".as_slice() {
        Some(Edit::RemoveRoute(name))
    } else {
        None
    }
}

/// What stands before the joints of a section.
#[derive(Clone, Copy)]
struct SectionHead {
    name: Name,
    kind: SectionKind,
    length: u32,
    speed: u32,
}

/// The section that the words spell.
fn section_in(alloc: Global, args: &[u8]) -> Result<Option<Section>, AllocError>
    ensures { IfOk result (λ section. section ≡ section_in (words args.now)) }
{
    let Some((head, rest)) = section_head(args) else {
        return Ok(None);
    };
    let Some(joints) = read_names(alloc, rest)? else {
        return Ok(None);
    };
    if joints.len() < 2 || joints.len() > 4 {
        return Ok(None);
    }
    Ok(Some(Section {
        name: head.name,
        kind: head.kind,
        length: head.length,
        speed: head.speed,
        joints: Seq::from_vec(joints),
    }))
}

/// What stands before the joints, and the text behind it.
fn section_head(args: &[u8]) -> Option<(SectionHead, &[u8])>
    ensures { MatchOption result (section_in (words args.now) ≡ None) (λ parts. section_in (words args.now) ≡ cond (are_joints (words parts.1.now)) (Some record {
      name = parts.0.name;
      kind = parts.0.kind;
      length = parts.0.length;
      speed = parts.0.speed;
      joints = words parts.1.now;
    }) None) }
{
    let (name, rest) = next_word(args)?;
    let (word, rest) = next_word(rest)?;
    let (length, rest) = next_word(rest)?;
    let (speed, rest) = next_word(rest)?;
    let head = SectionHead {
        name: Name::read(name)?,
        kind: kind(word)?,
        length: number(length)?,
        speed: number(speed)?,
    };
    Some((head, rest))
}

/// The times of a post.
#[derive(Clone, Copy)]
struct PostTimes {
    setting: u32,
    watching: u32,
    approach: u32,
}

/// The times of a post that the words spell.
fn times_in(args: &[u8]) -> Option<PostTimes>
    ensures { result ≡ times_in (words args.now) }
{
    let (setting, rest) = next_word(args)?;
    let (watching, rest) = next_word(rest)?;
    let (approach, rest) = next_word(rest)?;
    if next_word(rest).is_some() {
        return None;
    }
    Some(PostTimes {
        setting: number(setting)?,
        watching: number(watching)?,
        approach: number(approach)?,
    })
}

/// The portal that the words spell.
fn portal_in(args: &[u8]) -> Option<Post>
    ensures read { result ≡ portal_in (words args.now) }
    ensures formed { IfSome result (λ post. IsTrue (is_formed post)) }
{
    let (name, rest) = next_word(args)?;
    let (joint, rest) = next_word(rest)?;
    let times = times_in(rest)?;
    Some(Post {
        name: Name::read(name)?,
        role: PostRole::Portal,
        joint: Name::read(joint)?,
        ahead: None,
        setting: times.setting,
        watching: times.watching,
        approach: times.approach,
    })
}

/// The signal that the words spell.
fn signal_in(args: &[u8]) -> Option<Post>
    ensures read { result ≡ signal_in (words args.now) }
    ensures formed { IfSome result (λ post. IsTrue (is_formed post)) }
{
    let (name, rest) = next_word(args)?;
    let (joint, rest) = next_word(rest)?;
    let (ahead, rest) = next_word(rest)?;
    let times = times_in(rest)?;
    Some(Post {
        name: Name::read(name)?,
        role: PostRole::Signal,
        joint: Name::read(joint)?,
        ahead: Some(Name::read(ahead)?),
        setting: times.setting,
        watching: times.watching,
        approach: times.approach,
    })
}

/// The board that the words spell.
fn board_in(args: &[u8]) -> Option<Post>
    ensures read { result ≡ board_in (words args.now) }
    ensures formed { IfSome result (λ post. IsTrue (is_formed post)) }
{
    let (name, rest) = next_word(args)?;
    let (joint, rest) = next_word(rest)?;
    if next_word(rest).is_some() {
        return None;
    }
    Some(Post {
        name: Name::read(name)?,
        role: PostRole::Board,
        joint: Name::read(joint)?,
        ahead: None,
        setting: 0,
        watching: 0,
        approach: 0,
    })
}

/// The turn that the words spell.
fn turn_in(args: &[u8]) -> Option<Turn>
    ensures { result ≡ turn_in (words args.now) }
{
    let (arriving, rest) = next_word(args)?;
    let (leaving, rest) = next_word(rest)?;
    let (time, rest) = next_word(rest)?;
    if next_word(rest).is_some() {
        return None;
    }
    Some(Turn {
        arriving: Name::read(arriving)?,
        leaving: Name::read(leaving)?,
        time: number(time)?,
    })
}

/// What stands before the steps of a route: its name, its posts, and the joint where it begins.
#[derive(Clone, Copy)]
struct RouteHead {
    name: Name,
    from: Name,
    to: Name,
    joint: Name,
}

/// The route that the words spell.
fn route_in(alloc: Global, args: &[u8]) -> Result<Option<Route>, AllocError>
    ensures { IfOk result (λ route. route ≡ route_in (words args.now)) }
{
    let Some((head, rest)) = route_head(args) else {
        return Ok(None);
    };
    let Some(way) = way_from(alloc, head.joint, rest)? else {
        return Ok(None);
    };
    if way.steps.as_slice().is_empty() {
        return Ok(None);
    }
    Ok(Some(Route {
        name: head.name,
        from: head.from,
        to: head.to,
        steps: way.steps,
        overlap: way.overlap,
    }))
}

/// What stands before the steps, and the text behind it.
fn route_head(args: &[u8]) -> Option<(RouteHead, &[u8])>
    ensures { MatchOption result (route_in (words args.now) ≡ None) (λ parts. route_in (words args.now)
        ≡ option_and_then (route_over parts.0.name parts.0.from parts.0.to) (way_from parts.0.joint (words parts.1.now))) }
{
    let (name, rest) = next_word(args)?;
    let (from, rest) = next_word(rest)?;
    let (to, rest) = next_word(rest)?;
    let (joint, rest) = next_word(rest)?;
    let head = RouteHead {
        name: Name::read(name)?,
        from: Name::read(from)?,
        to: Name::read(to)?,
        joint: Name::read(joint)?,
    };
    Some((head, rest))
}
