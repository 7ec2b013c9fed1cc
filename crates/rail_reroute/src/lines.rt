//! The line that is written for an answer.

ghost use Rattle.std.specs.Prelude.{◌≡◌, ◌+◌, ◌≤◌, ◌++◌, ◌∷◌, [], codes, decimal, length, map};
ghost use Rattle.rail_rules.specs.Texts.{behind, items_of};
ghost use Rattle.rail_text.specs.Names.{section_name, train_name};
ghost use Rattle.rail_text.specs.Writes.{WritesText};
ghost use Rattle.rail_text.specs.declared.line_buffer.TheConstants.{ROOM};
ghost use Rattle.rail_reroute.specs.Lines.{head_words, item_word, judged_line, list_words, scene_names};

use crate::judgements::Judged;
use rail_base::{SectionNo, TrainNo, repeats};
use rail_io::{Failed, Sink, write_whole};
use rail_scene::Scene;
use rail_text::LineBuffer;

/// Writes the answer to the proposal on this line of its file. The sections and trains in it are those of the scene.
pub fn write_judged<O: Sink>(
    scene: &Scene,
    line: u32,
    judged: &Judged,
    out: &mut O,
) -> Result<(), Failed>
    ensures { WritesText O.Sink out.old out.new (judged_line (scene_names scene.now) line judged.now) result }
{
    write_head(scene, line, judged, out)?;
    write_list(scene, judged, out)?;
    write_end(out)
}

/// Writes the line up to its list, which some answers have.
fn write_head<O: Sink>(scene: &Scene, line: u32, judged: &Judged, out: &mut O) -> Result<(), Failed>
    ensures { WritesText O.Sink out.old out.new (codes "line" ++ behind (decimal line ∷ head_words (scene_names scene.now) judged.now)) result }
{
    let mut text = LineBuffer::new();
    text.put(b"line");
    text.put_number(u64::from(line));
    put_judged(&mut text, scene, judged);
    write_whole(out, text.as_slice())
}

/// Puts the answer, but for its list.
fn put_judged(line: &mut LineBuffer, scene: &Scene, judged: &Judged)
    requires { length line.old + 80 ≤ ROOM }
    ensures { line.new ≡ line.old ++ behind (head_words (scene_names scene.now) judged.now) }
{
    match judged {
        Judged::Out => line.put_word(b"out"),
        Judged::Refused { reason, place } => {
            line.put_word(b"refused");
            line.put_number(u64::from(reason.number()));
            line.put_number(u64::from(*place));
        }
        Judged::Overlap {
            section,
            first,
            second,
        } => {
            line.put_word(b"overlap");
            put_section(line, scene, *section);
            put_train(line, scene, *first);
            put_train(line, scene, *second);
        }
        Judged::NoList => line.put_word(b"nolist"),
        Judged::List(_) => line.put_word(b"list"),
    }
}

/// Writes the list of the answer, where it has one.
fn write_list<O: Sink>(scene: &Scene, judged: &Judged, out: &mut O) -> Result<(), Failed>
    ensures { WritesText O.Sink out.old out.new (behind (list_words (scene_names scene.now) judged.now)) result }
{
    match judged {
        Judged::List(list) => write_items(scene, list.as_slice(), out),
        _ => Ok(()),
    }
}

/// Writes the end of a line.
fn write_end<O: Sink>(out: &mut O) -> Result<(), Failed>
    ensures { WritesText O.Sink out.old out.new (10 ∷ []) result }
{
    write_whole(out, b"\n")
}

/// Writes the items of a list: neighbouring equal trains are one.
fn write_items<O: Sink>(scene: &Scene, list: &[TrainNo], out: &mut O) -> Result<(), Failed>
    ensures { WritesText O.Sink out.old out.new (behind (map (item_word (scene_names scene.now)) (items_of list.now))) result }
{
    let mut left = list;
    while let Some((train, others)) = left.split_first() {
        let more = repeats(*train, others);
        write_item(scene, *train, more + 1, out)?;
        left = &others[more..];
    }
    Ok(())
}

/// Writes the name of the train, and how often it is taken in a row from two times on.
fn write_item<O: Sink>(
    scene: &Scene,
    train: TrainNo,
    count: usize,
    out: &mut O,
) -> Result<(), Failed>
    ensures { WritesText O.Sink out.old out.new (32 ∷ item_word (scene_names scene.now) (record { train = train; count = count })) result }
{
    let mut text = LineBuffer::new();
    put_train(&mut text, scene, train);
    if count != 1 {
        text.put_count(count as u64);
    }
    write_whole(out, text.as_slice())
}

/// Puts a space and the name of the train; nothing but the space where no train has the number.
fn put_train(line: &mut LineBuffer, scene: &Scene, train: TrainNo)
    requires { length line.old + 17 ≤ ROOM }
    ensures text { line.new ≡ line.old ++ 32 ∷ train_name (scene_names scene.now) train }
    ensures short { length line.new ≤ length line.old + 17 }
{
    match scene.trains.as_slice().get(usize::from(train.0)) {
        Some(row) => line.put_name(&row.name),
        None => line.put_word(b""),
    }
}

/// Puts a space and the name of the section; nothing but the space where no section has the number.
fn put_section(line: &mut LineBuffer, scene: &Scene, section: SectionNo)
    requires { length line.old + 17 ≤ ROOM }
    ensures text { line.new ≡ line.old ++ 32 ∷ section_name (scene_names scene.now) section }
    ensures short { length line.new ≤ length line.old + 17 }
{
    match scene.network.sections().get(usize::from(section.0)) {
        Some(row) => line.put_name(&row.name),
        None => line.put_word(b""),
    }
}
