//! The report is written line by line.

ghost use Rattle.std.specs.Prelude.{◌≡◌, ◌+◌, ◌<◌, ◌≤◌, ◌++◌, List, length};
ghost use Rattle.rail_base.specs.declared.limits.TheConstants.{ITINERARY_ROUTES};
ghost use Rattle.rail_base.specs.declared.orders.Command.{Command};
ghost use Rattle.rail_text.specs.declared.line_buffer.TheConstants.{ROOM};
ghost use Rattle.rail_rules.specs.Fronts.{Front};
ghost use Rattle.rail_rules.specs.Numbers.{gather};
ghost use Rattle.rail_rules.specs.Plant.{call_after, moves, trains};
ghost use Rattle.rail_rules.specs.Texts.{behind, spaced};
ghost use Rattle.rail_delay.specs.Accounts.{AreNoted};
ghost use Rattle.rail_delay.specs.Reports.{call_line, call_lines, call_words, entry_words, held_words, report_of, report_text, total_words, train_line, train_words};
ghost use Rattle.rail_text.specs.Writes.{WritesText};

use crate::account::Account;
use crate::delays::Delays;
use crate::lines::{Times, put_count, put_sum, put_times};
use crate::totals::{how_many_cancelled, how_many_out, total_held, total_late};
use crate::visits::{Visit, visit_of};
use rail_base::{Call, TrainNo};
use rail_io::{Failed, Sink, write_whole};
use rail_plan::Plant;
use rail_text::LineBuffer;

/// Writes the report of the history whose lines were noted: a line for each call of a train, by train and place, a
/// line for each train, and the totals. Times that are not there are a dash; how late and how long are tenths of a
/// second. It takes no memory.
///
/// A wait is counted by the line that ends it, so the whole report is that of a history whose end line was noted. On
/// `Failed` a first part of the report was written. The delays have to be those of this plant.
pub fn write_report<O: Sink>(plant: &Plant, delays: &Delays, out: &mut O) -> Result<(), Failed>
    requires { length delays.now.accounts ≡ trains plant.now }
    ensures { (commands : List Command) (front : Front) → AreNoted plant.now commands front delays.now
        → WritesText O.Sink out.old out.new (report_text plant.now commands front) result }
{
    write_kept(plant, delays, out)
}

/// Writes the report of what is kept.
fn write_kept<O: Sink>(plant: &Plant, delays: &Delays, out: &mut O) -> Result<(), Failed>
    requires { length delays.now.accounts ≡ trains plant.now }
    ensures { WritesText O.Sink out.old out.new (report_of plant.now delays.now.accounts delays.now.visits) result }
{
    write_calls(plant, delays, out)?;
    write_trains(plant, delays, out)?;
    write_total(plant, delays, out)
}

/// Writes the line of the totals.
fn write_total<O: Sink>(plant: &Plant, delays: &Delays, out: &mut O) -> Result<(), Failed>
    ensures { WritesText O.Sink out.old out.new (spaced (total_words plant.now delays.now.accounts delays.now.visits)) result }
{
    let line = total_text(plant, delays);
    write_whole(out, line.as_slice())
}

/// Writes the calls of each train.
fn write_calls<O: Sink>(plant: &Plant, delays: &Delays, out: &mut O) -> Result<(), Failed>
    ensures { WritesText O.Sink out.old out.new (gather (call_lines plant.now delays.now.visits) (trains plant.now)) result }
{
    let trains = plant.moves().trains();
    for number in 0..trains {
        let train = TrainNo(number);
        write_train_calls(plant, delays.visits(train), train, out)?;
    }
    Ok(())
}

/// Writes the calls of the train, by place.
fn write_train_calls<O: Sink>(
    plant: &Plant,
    row: &[Visit],
    train: TrainNo,
    out: &mut O,
) -> Result<(), Failed>
    requires { train < trains plant.now }
    ensures { WritesText O.Sink out.old out.new
        (gather (λ m. call_line plant.now train row.now m (call_after plant.now train m)) (moves plant.now train)) result }
{
    let places = plant.train(train).moves.as_slice().len() as u16;
    for index in 0..places {
        write_call(plant, row, train, index, out)?;
    }
    Ok(())
}

/// Writes the call at the end of a move of the train, counted from 0, where there is one.
fn write_call<O: Sink>(
    plant: &Plant,
    row: &[Visit],
    train: TrainNo,
    index: u16,
    out: &mut O,
) -> Result<(), Failed>
    requires train { train < trains plant.now }
    requires within { index < moves plant.now train }
    requires few { index < ITINERARY_ROUTES }
    ensures { WritesText O.Sink out.old out.new (call_line plant.now train row.now index (call_after plant.now train index)) result }
{
    match plant.call(train, index + 1) {
        Some(call) => {
            let line = call_text(plant, row, train, index, call);
            write_whole(out, line.as_slice())
        }
        None => Ok(()),
    }
}

/// The line of a call.
fn call_text(plant: &Plant, row: &[Visit], train: TrainNo, index: u16, call: Call) -> LineBuffer
    requires { train < trains plant.now }
    ensures { result ≡ spaced (call_words plant.now train index row.now call) }
{
    let visit = usize::from(index);
    let arrival = Times {
        planned: call.arrival,
        actual: visit_of(row, visit).arrived,
    };
    let departure = Times {
        planned: call.departure,
        actual: visit_of(row, visit + 1).departed,
    };
    let mut line = LineBuffer::new();
    line.put(b"call");
    line.put_name(&plant.train(train).name);
    line.put_number(u64::from(index) + 1);
    line.put_word(b"arr");
    put_times(&mut line, &arrival);
    line.put_word(b"dep");
    put_times(&mut line, &departure);
    line.put(b"\n");
    line
}

/// Writes the line of each train.
fn write_trains<O: Sink>(plant: &Plant, delays: &Delays, out: &mut O) -> Result<(), Failed>
    requires { length delays.now.accounts ≡ trains plant.now }
    ensures { WritesText O.Sink out.old out.new
        (gather (train_line plant.now delays.now.accounts delays.now.visits) (trains plant.now)) result }
{
    let trains = plant.moves().trains();
    for number in 0..trains {
        let account = &delays.accounts()[usize::from(number)];
        write_train(
            plant,
            TrainNo(number),
            delays.visits(TrainNo(number)),
            account,
            out,
        )?;
    }
    Ok(())
}

/// Writes the line of the train.
fn write_train<O: Sink>(
    plant: &Plant,
    train: TrainNo,
    row: &[Visit],
    account: &Account,
    out: &mut O,
) -> Result<(), Failed>
    requires { train < trains plant.now }
    ensures { WritesText O.Sink out.old out.new (spaced (train_words plant.now train row.now account.now)) result }
{
    let line = train_text(plant, train, row, account);
    write_whole(out, line.as_slice())
}

/// The line of a train.
fn train_text(plant: &Plant, train: TrainNo, row: &[Visit], account: &Account) -> LineBuffer
    requires { train < trains plant.now }
    ensures { result ≡ spaced (train_words plant.now train row.now account.now) }
{
    let entry = Times {
        planned: Some(plant.train(train).entry),
        actual: visit_of(row, 0).departed,
    };
    let mut line = LineBuffer::new();
    line.put(b"train");
    line.put_name(&plant.train(train).name);
    line.put_word(b"entry");
    put_times(&mut line, &entry);
    line.put_word(b"out");
    line.put_time_or_dash(account.out);
    put_held(&mut line, account);
    line.put(b"\n");
    line
}

/// Puts how long the train was held, in all and by kind of cause.
fn put_held(line: &mut LineBuffer, account: &Account)
    requires { length line.old + 255 ≤ ROOM }
    ensures text { line.new ≡ line.old ++ behind (held_words account.now) }
    ensures short { length line.new ≤ length line.old + 255 }
{
    put_count(line, b"held", account.held);
    put_count(line, b"stopped", account.stopped);
    put_count(line, b"closed", account.closed);
    put_count(line, b"blocked", account.blocked);
    put_count(line, b"nolist", account.no_list);
}

/// The line of the totals.
fn total_text(plant: &Plant, delays: &Delays) -> LineBuffer
    ensures { result ≡ spaced (total_words plant.now delays.now.accounts delays.now.visits) }
{
    let mut line = LineBuffer::new();
    line.put(b"total");
    put_count(&mut line, b"trains", u64::from(plant.moves().trains()));
    put_count(&mut line, b"out", how_many_out(delays.accounts()));
    put_count(
        &mut line,
        b"cancelled",
        how_many_cancelled(delays.accounts()),
    );
    put_sum(&mut line, b"late", total_late(plant, delays));
    put_sum(&mut line, b"held", total_held(delays.accounts()));
    line.put(b"\n");
    line
}
