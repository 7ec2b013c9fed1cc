//! The words of a line, put at its end one after another.

ghost use Rattle.std.specs.Prelude.{◌≡◌, ◌+◌, ◌<◌, ◌≤◌, [], ◌++◌, length};
ghost use Rattle.rail_text.specs.declared.line_buffer.TheConstants.{ROOM};
ghost use Rattle.rail_rules.specs.Plant.{trains};
ghost use Rattle.rail_rules.specs.Texts.{behind, spaced};
ghost use Rattle.rail_stairs.specs.StairsTexts.{interval_words, over_words, part_words, stair_line, stair_words};

use rail_base::{Interval, Parts};
use rail_plan::Plant;
use rail_text::LineBuffer;

/// Puts the line of an interval: one of an overlap has no parts, and so not the first of them.
pub(crate) fn put_line(line: &mut LineBuffer, plant: &Plant, interval: &Interval)
    requires empty { line.old ≡ [] }
    requires train { interval.now.train < trains plant.now }
    requires section { interval.now.section < length plant.now.tables.sections }
    ensures { line.new ≡ stair_line plant.now interval.now }
{
    if interval.parts.setting.is_none() {
        put_over(line, plant, interval);
    } else {
        put_stair(line, plant, interval);
    }
}

/// Puts the line of an interval of an overlap.
fn put_over(line: &mut LineBuffer, plant: &Plant, interval: &Interval)
    requires empty { line.old ≡ [] }
    requires train { interval.now.train < trains plant.now }
    requires section { interval.now.section < length plant.now.tables.sections }
    ensures { line.new ≡ spaced (over_words plant.now interval.now) }
{
    line.put(b"over");
    put_interval(line, plant, interval);
    line.put(b"\n");
}

/// Puts the line of an interval of a needed section.
fn put_stair(line: &mut LineBuffer, plant: &Plant, interval: &Interval)
    requires empty { line.old ≡ [] }
    requires train { interval.now.train < trains plant.now }
    requires section { interval.now.section < length plant.now.tables.sections }
    ensures { line.new ≡ spaced (stair_words plant.now interval.now) }
{
    line.put(b"stair");
    put_interval(line, plant, interval);
    put_parts(line, &interval.parts);
    line.put(b"\n");
}

/// Puts the words that each interval has.
fn put_interval(line: &mut LineBuffer, plant: &Plant, interval: &Interval)
    requires room { length line.old + 121 ≤ ROOM }
    requires train { interval.now.train < trains plant.now }
    requires section { interval.now.section < length plant.now.tables.sections }
    ensures text { line.new ≡ line.old ++ behind (interval_words plant.now interval.now) }
    ensures short { length line.new ≤ length line.old + 121 }
{
    line.put_name(&plant.train(interval.train).name);
    line.put_number(u64::from(interval.place));
    line.put_name(&plant.section(interval.section).name);
    line.put_time(interval.begin);
    line.put_time_or_dash(interval.end);
}

/// Puts the nine parts of an interval.
fn put_parts(line: &mut LineBuffer, parts: &Parts)
    requires { length line.old + 189 ≤ ROOM }
    ensures text { line.new ≡ line.old ++ behind (part_words parts.now) }
    ensures short { length line.new ≤ length line.old + 189 }
{
    line.put_number_or_dash(parts.setting);
    line.put_number_or_dash(parts.watching);
    line.put_number_or_dash(parts.approach);
    line.put_number_or_dash(parts.waiting);
    line.put_number_or_dash(parts.earlier);
    line.put_number_or_dash(parts.running);
    line.put_number_or_dash(parts.standing);
    line.put_number_or_dash(parts.clearing);
    line.put_number_or_dash(parts.release);
}
