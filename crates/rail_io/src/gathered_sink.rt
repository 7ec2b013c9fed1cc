//! A sink that gathers what is written, and hands it on in large pieces to the sink behind it.

ghost use Rattle.std.specs.Prelude.{◌≡◌, ◌<◌, ◌≤◌, [], ◌++◌, Ok, IsOk, IfOk, OnOk, OnErr, length, take};
ghost use Rattle.rail_io.specs.FaultCounts.{Rose};
ghost use Rattle.rail_io.specs.Room.{size_of};
ghost use Rattle.rail_io.specs.Writes.{Adds, HandsOn};

use crate::room::Room;
use crate::sink::{Failed, Sink};
use crate::whole_files::write_front;
use rail_base::OutOfMemory;
use std::alloc::Global;

/// A sink that gathers what is written in a room of its own, and hands it on to the sink behind it, in
/// order: where the room is full, and where it is told to finish. What it tells are the bytes of the sink
/// behind it and those that are gathered; its faults are those of the sink behind it.
#[derive(Drop)]
pub struct GatheredSink<S> {
    behind: S,
    room: Room,
    ghost has_room: { 0 < size_of room },
}

impl<S: Sink + Drop> GatheredSink<S> {
    ghost use Rattle.rail_io.specs.GatheredSink.{behind_of, gathered_by, room_of, told_by};

    /// A sink before this one, with room for so many bytes, which it takes here.
    pub fn with_room(alloc: Global, behind: S, room: usize) -> Result<GatheredSink<S>, OutOfMemory>
        requires { 0 < room }
        ensures none_gathered { IfOk result (λ sink. gathered_by sink ≡ []) }
        ensures room { IfOk result (λ sink. room_of sink ≡ room) }
        ensures behind { IfOk result (λ sink. behind_of sink ≡ behind) }
    {
        let room = Room::new(alloc, room)?;
        Ok(GatheredSink { behind, room })
    }

    /// The sink behind this one.
    pub fn behind(&self) -> &S
        ensures { result.now ≡ behind_of self.now }
    {
        &self.behind
    }

    /// Hands on all that is gathered: what the sink behind this one was given is then all that was written.
    /// On `Failed` a first part was handed on, and the rest stays gathered. More may be written afterwards.
    pub fn finish(&mut self) -> Result<(), Failed>
        ensures none_left { OnOk result (gathered_by self.new ≡ []) }
        ensures hands_on_all { OnOk result
            (Adds (S.written (behind_of self.old)) (S.written (behind_of self.new)) (gathered_by self.old)) }
        ensures failed_hands_on { OnErr result (HandsOn (S.written (behind_of self.old)) (gathered_by self.old)
            (S.written (behind_of self.new)) (gathered_by self.new)) }
        ensures ok_tells_all { OnOk result (Adds (told_by S.written self.old) (S.written (behind_of self.new)) []) }
        ensures told_stays { Adds (told_by S.written self.old) (told_by S.written self.new) [] }
        ensures failed_rose { OnErr result (Rose (S.faults (behind_of self.old)) (S.faults (behind_of self.new))) }
        ensures empty_is_ok { gathered_by self.old ≡ [] → IsOk result }
        ensures empty_takes_no_call { gathered_by self.old ≡ [] → behind_of self.new ≡ behind_of self.old }
        ensures faults_never_fall { S.faults (behind_of self.old) ≤ S.faults (behind_of self.new) }
        ensures room_stays { room_of self.new ≡ room_of self.old }
    {
        let count = write_front(&mut self.behind, self.room.as_slice());
        self.room.drop_front(count);
        if self.room.as_slice().is_empty() {
            Ok(())
        } else {
            Err(Failed)
        }
    }

    /// Takes what there is room for once all that is gathered is handed on.
    #[cold]
    #[inline(never)]
    fn write_anew(&mut self, piece: &[u8]) -> Result<usize, Failed>
        requires some { 0 < length piece.now }
        ensures room_stays { room_of self.new ≡ room_of self.old }
        ensures some { IfOk result (λ n. 0 < n) }
        ensures within { IfOk result (λ n. n ≤ length piece.now) }
        ensures adds { IfOk result (λ n. Adds (told_by S.written self.old) (told_by S.written self.new) (take n piece.now)) }
        ensures failed_adds_none { OnErr result (Adds (told_by S.written self.old) (told_by S.written self.new) []) }
        ensures failed_rose { OnErr result (Rose (S.faults (behind_of self.old)) (S.faults (behind_of self.new))) }
        ensures faults_never_fall { S.faults (behind_of self.old) ≤ S.faults (behind_of self.new) }
    {
        self.finish()?;
        Ok(self.room.put(piece))
    }
}

impl<S: Sink + Drop> Sink for GatheredSink<S> {
    ghost use Rattle.rail_io.specs.GatheredSink.{HasRoomFor, behind_of, gathered_by, room_of, told_by};

    ghost written = { told_by S.written };

    ghost faults = { λ sink. S.faults (behind_of sink) };

    /// Takes what there is room for. Where the room is full, what is gathered is handed on before.
    #[inline(always)]
    fn write(&mut self, piece: &[u8]) -> Result<usize, Failed>
        requires { 0 < length piece.now }

        ensures fitting_is_taken { HasRoomFor self.old piece.now → result ≡ Ok (length piece.now) }
        ensures fitting_is_gathered { HasRoomFor self.old piece.now →
            gathered_by self.new ≡ gathered_by self.old ++ piece.now }
        ensures fitting_takes_no_call { HasRoomFor self.old piece.now → behind_of self.new ≡ behind_of self.old }
        ensures room_stays { room_of self.new ≡ room_of self.old }

        ensures some { IfOk result (λ n. 0 < n) }
        ensures within { IfOk result (λ n. n ≤ length piece.now) }
        ensures adds { IfOk result (λ n. Adds (told_by S.written self.old) (told_by S.written self.new) (take n piece.now)) }
        ensures failed_adds_none { OnErr result (Adds (told_by S.written self.old) (told_by S.written self.new) []) }
        ensures failed_rose { OnErr result (Rose (S.faults (behind_of self.old)) (S.faults (behind_of self.new))) }
        ensures faults_never_fall { S.faults (behind_of self.old) ≤ S.faults (behind_of self.new) }
    {
        let count = self.room.put(piece);
        if count > 0 {
            return Ok(count);
        }
        self.write_anew(piece)
    }
}
