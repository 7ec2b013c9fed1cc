//! Reports: what is written of the lines that were noted.

ghost use Rattle.std.specs.Prelude.{◌≡◌, IfOk, length};
ghost use Rattle.rail_rules.specs.Plant.{trains};

use rail_base::Fault;
use rail_command_file::read_commands;
use rail_compile::compile;
use rail_delay::{Delays, write_report};
use rail_history::read_history;
use rail_io::MemorySink;
use rail_plan::Plant;
use rail_scene::read_scene;
use rail_timetable::read_timetable;
use std::alloc::{AllocError, Global};

// A single track between two loops; of its routes those that the trains here take. The trains follow.
const LINE: &str = "
version = 1
release = 20
section = [
    { name = 'W', kind = 'plain', length = 1000, speed = 90, joints = ['a', 'b'] },
    { name = 'PW', kind = 'points', length = 50, speed = 90, joints = ['b', 'c', 'd'] },
    { name = 'L1', kind = 'plain', length = 1000, speed = 90, joints = ['c', 'e'] },
    { name = 'L2', kind = 'plain', length = 1000, speed = 90, joints = ['d', 'f'] },
    { name = 'PE', kind = 'points', length = 50, speed = 90, joints = ['g', 'e', 'f'] },
    { name = 'E', kind = 'plain', length = 1000, speed = 90, joints = ['g', 'h'] },
]
portal = [
    { name = 'West', joint = 'a', setting = 10, watching = 10, approach = 100 },
    { name = 'East', joint = 'h', setting = 10, watching = 10, approach = 100 },
]
signal = [
    { name = 'E1', joint = 'e', ahead = 'PE', setting = 10, watching = 10, approach = 100 },
    { name = 'W1', joint = 'c', ahead = 'PW', setting = 10, watching = 10, approach = 100 },
    { name = 'SW', joint = 'b', ahead = 'PW', setting = 10, watching = 10, approach = 100 },
]
route = [
    { name = 'we1', from = 'West', to = 'E1', path = ['a', 'W', 'b', 'PW', 'c', 'L1', 'e'] },
    { name = 'ee1', from = 'E1', to = 'East', path = ['e', 'PE', 'g', 'E', 'h'] },
    { name = 'ww1', from = 'East', to = 'W1', path = ['h', 'E', 'g', 'PE', 'e', 'L1', 'c'] },
    { name = 'xw1', from = 'W1', to = 'West', path = ['c', 'PW', 'b', 'W', 'a'] },
    { name = 'w0', from = 'West', to = 'SW', path = ['a', 'W', 'b'] },
    { name = 'wl1', from = 'SW', to = 'E1', path = ['b', 'PW', 'c', 'L1', 'e'] },
]
kind = [{ name = 'R', length = 90, speed = 90, start = 100, stop = 50 }]
";

/// One train, by a place on the loop.
const ONE: &str =
    "train = [{ name = 'A', kind = 'R', entry = '00:02:00', routes = ['we1', 'ee1'] }]\n";

/// Two trains against each other.
const TWO: &str = "train = [
    { name = 'A', kind = 'R', entry = '00:02:00', routes = ['w0', 'wl1', 'ee1'] },
    { name = 'B', kind = 'R', entry = '00:02:00', routes = ['ww1', 'xw1'] },
]
";

/// B is held for want of a list, and then by a blocked section.
pub(super) const HELD: &str = "\
00:01:48.0 ready A 1
00:01:48.0 ready B 1
00:01:48.0 admit A 1 appended
00:01:48.0 hold B 1 nolist
00:02:00.0 enter A 1 W
00:02:28.0 ready A 2
00:02:28.0 admit A 2 pulled
00:02:28.0 hold B 1 blocked L1 A
00:02:40.0 arrive A 1
00:02:40.0 enter A 2 PW
00:02:42.0 enter A 2 L1
00:02:45.6 free W A
00:02:47.6 free PW A
00:03:10.0 ready A 3
00:03:10.0 admit A 3 pulled
00:03:10.0 hold B 1 blocked E A
00:03:22.0 arrive A 2
00:03:22.0 enter A 3 PE
00:03:24.0 enter A 3 E
00:03:27.6 free L1 A
00:03:29.6 free PE A
00:04:04.0 arrive A 3
00:04:07.6 out A
00:04:09.6 free E A
00:04:09.6 admit B 1 appended
00:04:11.6 enter B 1 E
00:05:01.6 enter B 1 PE
00:05:03.6 enter B 1 L1
00:05:07.2 free E B
00:05:09.2 free PE B
00:05:31.6 ready B 2
00:05:31.6 admit B 2 pulled
00:05:43.6 arrive B 1
00:05:43.6 enter B 2 PW
00:05:45.6 enter B 2 W
00:05:49.2 free L1 B
00:05:51.2 free PW B
00:06:25.6 arrive B 2
00:06:29.2 out B
00:06:31.2 free W B
00:06:31.2 end
";

const HELD_REPORT: &str = "\
train A entry 00:02:00.0 00:02:00.0 0 out 00:04:07.6 held 0 stopped 0 closed 0 blocked 0 nolist 0
train B entry 00:02:00.0 00:04:11.6 1316 out 00:06:29.2 held 1416 stopped 0 closed 0 blocked 1016 nolist 400
total trains 2 out 2 cancelled 0 late 1316 held 1416
";

/// A stop with a departure, and a call where the train leaves.
const STOP: &str = "\
train,place,arrival,departure,dwell
A,1,00:03:20,00:05:00,00:01:00
A,2,00:06:00,,
";

/// Of its history, the lines that tell of departures and arrivals.
const STOPPED: &str = "\
00:02:00.0 enter A 1 W
00:02:40.0 enter A 1 PW
00:03:27.0 arrive A 1
00:05:00.0 enter A 2 PE
00:05:12.0 enter A 2 E
00:05:52.0 arrive A 2
00:05:55.6 out A
00:05:57.6 end
";

const STOPPED_REPORT: &str = "\
call A 1 arr 00:03:20.0 00:03:27.0 70 dep 00:05:00.0 00:05:00.0 0
call A 2 arr 00:06:00.0 00:05:52.0 0 dep - - -
train A entry 00:02:00.0 00:02:00.0 0 out 00:05:55.6 held 0 stopped 0 closed 0 blocked 0 nolist 0
total trains 1 out 1 cancelled 0 late 70 held 0
";

/// A train that is held by a stop, then by a closed section, and is cancelled.
const ORDERS: &str = "00:00:10 stop A\n00:02:10 go A\n00:02:20 cancel A\n";

const DROPPED: &str = "\
00:00:10.0 told 1
00:01:48.0 ready A 1
00:01:48.0 hold A 1 stopped
00:02:10.0 told 2
00:02:10.0 hold A 1 closed PW
00:02:20.0 told 3
00:09:00.0 end
";

const DROPPED_REPORT: &str = "\
train A entry 00:02:00.0 - - out - held 320 stopped 220 closed 100 blocked 0 nolist 0
total trains 1 out 0 cancelled 1 late 0 held 320
";

#[test]
fn reports_a_train_that_was_held(rt: HostRuntime) {
    assert!(rt;
        matches!(
            is_reported(rt.alloc(), TWO, "", "", HELD, 0, HELD_REPORT),
            Ok(true)
        )
    );
}

#[test]
fn reports_calls(rt: HostRuntime) {
    assert!(rt;
        matches!(
            is_reported(rt.alloc(), ONE, STOP, "", STOPPED, 0, STOPPED_REPORT),
            Ok(true)
        )
    );
}

#[test]
fn reports_a_train_that_was_cancelled(rt: HostRuntime) {
    assert!(rt;
        matches!(
            is_reported(rt.alloc(), ONE, "", ORDERS, DROPPED, 0, DROPPED_REPORT),
            Ok(true)
        )
    );
}

#[test]
fn ends_where_a_write_fails(rt: HostRuntime) {
    assert!(rt; matches!(has_its_first_line(rt.alloc()), Ok(true)));
}

/// Whether the first line of the report is written where the second write fails.
fn has_its_first_line(alloc: Global) -> Result<bool, Fault> {
    let first = HELD_REPORT.lines().next().unwrap_or("");
    let text = format!(in alloc; "{first}\n")?;
    is_reported(alloc, TWO, "", "", HELD, 2, text.as_str())
}

/// Whether the lines of the history, for the trains with their timetable and commands, are reported so; a write
/// fails where its number is not 0.
fn is_reported(
    alloc: Global,
    trains: &str,
    timetable: &str,
    commands: &str,
    history: &str,
    fail: u64,
    wanted: &str,
) -> Result<bool, Fault> {
    let plant = plant_of(alloc, trains, timetable)?;
    let delays = noted(alloc, &plant, commands, history)?;
    let mut sink = MemorySink::with_room(alloc, 4_096, alone(alloc, fail)?)?;
    let failed = write_report(&plant, &delays, &mut sink).is_err();
    Ok(failed == (fail > 0) && sink.bytes() == Some(wanted.as_bytes()))
}

/// The number of the call that fails, alone.
fn alone(alloc: Global, number: u64) -> Result<Vec<u64>, AllocError> {
    Ok(vec![in alloc; number]?)
}

/// The plant with these trains and their timetable, where there is one.
fn plant_of(alloc: Global, trains: &str, timetable: &str) -> Result<Plant, Fault> {
    let mut text = String::from_str(alloc, LINE)?;
    text.push_str(trains)?;
    let scene = read_scene(alloc, text.as_bytes())?;
    let plant = compile(alloc, &scene)?;
    if timetable.is_empty() || timetable.len() > 1_048_576 {
        return Ok(plant);
    }
    let calls = read_timetable(alloc, &plant, timetable.as_bytes())?;
    Ok(plant.with_calls(calls))
}

/// The lines of the history are noted.
fn noted(alloc: Global, plant: &Plant, commands: &str, history: &str) -> Result<Delays, Fault>
    ensures { IfOk result (λ delays. length delays.accounts ≡ trains plant.now) }
{
    if commands.len() > 1_048_576 || history.len() > 1_048_576 {
        return Err(Fault::OutOfMemory);
    }
    let commands = read_commands(alloc, plant.names(), commands.as_bytes())?;
    let history = read_history(alloc, plant.names(), history.as_bytes())?;
    let mut delays = Delays::new(alloc, plant, &commands)?;
    for entry in &history.entries {
        delays.note(plant, *entry);
    }
    Ok(delays)
}
