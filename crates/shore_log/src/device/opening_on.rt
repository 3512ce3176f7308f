//! The gate of one frame and the text of the next, in one sync.
ghost use Rattle.std.specs.Prelude.{◌≡◌, ◌⊎◌, ◌↔◌, ◌+◌, ◌<◌, ◌≤◌, [], ◌∷◌, ◌++◌, IfErr, IfOk, IfSome, IsSome, List, None, OnErr, OnOk, Ok, Some, drop, length, take, vec_capacity, vec_len, ℕ};
ghost use Rattle.std.specs.Option.{ForSome};
ghost use Rattle.shore_types.specs.declared.faults.Fault.TheVariants as Fault;
ghost use Rattle.shore_types.specs.declared.layout.TheConstants.{FRAME_SHARE};
ghost use Rattle.shore_disk.specs.Cause.{HasCause};
ghost use Rattle.shore_disk.specs.Device.{LeavesOnly, size};
ghost use Rattle.shore_model.specs.declared.log_records.LogRecord.{LogRecord};
ghost use Rattle.shore_logrec.specs.Text.{texts};
ghost use Rattle.shore_frames.specs.Frames.{GivesWithOrWithoutFrom, IsLongest, behind_gate};
ghost use Rattle.shore_log.specs.declared.tail.Told.{Told};

use super::{Durable, LogDev, Staged};
use crate::group::{frame_bytes, texts_for};
use crate::texts::let_go;
use shore_disk::Disk;
use shore_frames::{FrameAt, HEAD_BYTES, write_both_synced};
use shore_gate::OPEN;
use shore_types::Fault;
use std::alloc::Global;

impl<D: Disk> LogDev<D> {
    ghost use Rattle.shore_log.specs.Settled.{HasList, HasNoFrameRoom, HasNoRoomAfter, IsAsBefore, IsSpelled, IsSettledFrom, IsStagedFrom, KeepsFrames, KnowsRoom, cut_of_log, records_of_log, stable, waiting};

    /// Opens the gate of the staged frame, and by the same sync stages the longest list of the records after it that one frame holds: so each frame takes one sync as long as
    /// records wait. The gate alone is opened, as by `open_staged`, if none waits after it, or if there is no place or no memory for their frame: what was staged is forced whatever
    /// comes of the next. Answers the last durable number, and `None` if no frame is staged. `Device` if the device failed: the frame is staged still, and may be durable.
    pub fn open_and_stage(&mut self, alloc: Global) -> Result<Option<Durable>, Fault>
        // The group is durable, and a longest list of the records after it is staged, or none.
        ensures settled { (tail place : ℕ) (front : List ℕ) (group : List LogRecord) → IsStagedFrom tail place self.old front group
            → OnOk result (stable self.new ≡ stable self.old ++ group) }
        ensures alone { (tail place : ℕ) (front : List ℕ) (group : List LogRecord) → IsStagedFrom tail place self.old front group
            → OnOk result (self.new.staged ≡ None → IsSettledFrom tail place self.new front) }
        ensures staged { (tail place : ℕ) (front : List ℕ) (group : List LogRecord) → IsStagedFrom tail place self.old front group
            → OnOk result (ForSome self.new.staged (λ s. IsStagedFrom tail place self.new front (take s.count (waiting self.new)))) }
        ensures longest { IfOk result (λ n. IfSome n (λ _. ForSome self.new.staged (λ s. IsLongest (waiting self.new) s.count))) }
        // One is staged if a record waits and there is place for it, and those that wait came from a log buffer: that takes no memory.
        ensures goes_on { IsSpelled self.old → IfOk result (λ n. IfSome n (λ _. self.new.staged ≡ None → (waiting self.new ≡ []) ⊎ HasNoFrameRoom self.new)) }
        ensures spelled { IsSpelled self.old → IsSpelled self.new }
        ensures opened { IfOk result (λ n. IsSome n ↔ IsSome self.old.staged) }
        ensures durable { IfOk result (λ n. IfSome n (λ durable. durable.lsn ≡ cut_of_log self.new + length (stable self.new))) }
        ensures grown { IfOk result (λ n. IfSome n (λ durable. cut_of_log self.old + length (stable self.old) < durable.lsn)) }
        ensures frame { IfOk result (λ n. IfSome n (λ durable. ForSome self.old.staged (λ s. durable.lsn ≡ cut_of_log self.old + self.old.forced + s.count))) }
        ensures waited { OnErr result (IsSome self.old.staged) }
        ensures nothing { result ≡ Ok None → self.new ≡ self.old }

        // A crash at any moment of the call leaves the stable list from the tail on, with the frame that was staged or without it. Of the next frame it leaves nothing.
        ensures any_moment { (tail place : ℕ) (front : List ℕ) (group : List LogRecord) → IsStagedFrom tail place self.old front group
            → LeavesOnly (D.history self.old.device) (D.history self.new.device) (GivesWithOrWithoutFrom front tail place (stable self.old) group) }

        ensures same { records_of_log self.new ≡ records_of_log self.old }
        ensures tail { (self.new.tail ≡ self.old.tail) × (self.new.anchors ≡ self.old.anchors) }
        ensures list { HasList self.old → HasList self.new }
        // What a log buffer knows of its room holds still.
        ensures knows { (told : Told) → KnowsRoom self.old told → KnowsRoom self.new told }
        ensures only_device { IfErr result (λ fault. fault ≡ Fault.Device) }
        ensures unforced { OnErr result (stable self.new ≡ stable self.old) }
        ensures size { size (D.history self.new.device) ≡ size (D.history self.old.device) }
        ensures honest { D.is_honest self.new.device ≡ D.is_honest self.old.device }
        ensures cause { HasCause result (D.faults self.old.device) (D.faults self.new.device) }
    {
        let Some(staged) = self.staged else {
            return Ok(None);
        };
        match self.frame_after(alloc, staged) {
            Some(next) => Ok(Some(self.open_with(staged, next)?)),
            None => self.open_staged(),
        }
    }

    // Opens the gate of the staged frame, and by the same sync stages the next one, which is written out in memory.
    fn open_with(&mut self, staged: Staged, next: Staged) -> Result<Durable, Fault>
        requires staged { self.old.staged ≡ Some staged }
        requires some { 1 ≤ next.count }
        requires longest { IsLongest (drop staged.count (waiting self.old)) next.count }
        requires len { next.len ≡ length (texts (take next.count (drop staged.count (waiting self.old)))) }
        requires spelled { self.old.frame.items ≡ behind_gate (self.old.tail.first + (self.old.forced + staged.count)) (texts (take next.count (drop staged.count (waiting self.old)))) ++ 0 ∷ [] }
        requires inside { self.old.head + FRAME_SHARE + staged.len + FRAME_SHARE + next.len < self.old.tail.place + self.old.stream_bytes }
        requires listed { vec_len self.old.frames + 1 < vec_capacity self.old.frames }
        ensures settled { (tail place : ℕ) (front : List ℕ) (group : List LogRecord) → IsStagedFrom tail place self.old front group
            → OnOk result ((stable self.new ≡ stable self.old ++ group) × IsStagedFrom tail place self.new front (take next.count (waiting self.new))) }
        ensures staged { OnOk result (self.new.staged ≡ Some next) }
        ensures longest { OnOk result (IsLongest (waiting self.new) next.count) }
        ensures durable { IfOk result (λ durable. durable.lsn ≡ cut_of_log self.new + length (stable self.new)) }
        ensures grown { IfOk result (λ durable. cut_of_log self.old + length (stable self.old) < durable.lsn) }
        ensures frame { IfOk result (λ durable. durable.lsn ≡ cut_of_log self.old + self.old.forced + staged.count) }
        ensures any_moment { (tail place : ℕ) (front : List ℕ) (group : List LogRecord) → IsStagedFrom tail place self.old front group
            → LeavesOnly (D.history self.old.device) (D.history self.new.device) (GivesWithOrWithoutFrom front tail place (stable self.old) group) }
        ensures same { records_of_log self.new ≡ records_of_log self.old }
        ensures tail { (self.new.tail ≡ self.old.tail) × (self.new.anchors ≡ self.old.anchors) }
        ensures list { HasList self.old → HasList self.new }
        ensures knows { (told : Told) → KnowsRoom self.old told → KnowsRoom self.new told }
        ensures spelled { IsSpelled self.old → IsSpelled self.new }
        ensures only_device { IfErr result (λ fault. fault ≡ Fault.Device) }
        ensures unforced { OnErr result (stable self.new ≡ stable self.old) }
        ensures size { size (D.history self.new.device) ≡ size (D.history self.old.device) }
        ensures honest { D.is_honest self.new.device ≡ D.is_honest self.old.device }
        ensures cause { HasCause result (D.faults self.old.device) (D.faults self.new.device) }
    {
        let behind = self.at_behind(staged);
        let head = self.head + (1 + HEAD_BYTES + staged.len) as u64;
        write_both_synced(
            &mut self.device,
            self.stream_bytes,
            head + 1,
            &self.frame,
            self.head,
            OPEN,
        )?;
        self.frames.push_reserved(FrameAt {
            first: self.tail.first + self.forced as u64,
            place: self.head,
        });
        self.staged = Some(next);
        self.head = head;
        self.forced += staged.count;
        self.at = let_go(&mut self.bytes, behind);
        Ok(self.durable())
    }

    // The frame of the longest list of the records after the staged one. What it has behind its gate, with a closed gate behind that, is written out in memory, and the index has room
    // for both frames. None if no record waits there, or there is no place or no memory for it.
    fn frame_after(&mut self, alloc: Global, staged: Staged) -> Option<Staged>
        requires { self.old.staged ≡ Some staged }
        ensures same { IsAsBefore self.old self.new }
        ensures keeps { KeepsFrames self.old self.new }
        ensures some { IfSome result (λ next. 1 ≤ next.count) }
        ensures longest { IfSome result (λ next. IsLongest (drop staged.count (waiting self.new)) next.count) }
        ensures len { IfSome result (λ next. next.len ≡ length (texts (take next.count (drop staged.count (waiting self.new))))) }
        ensures spelled { IfSome result (λ next. self.new.frame.items
            ≡ behind_gate (self.new.tail.first + (self.new.forced + staged.count)) (texts (take next.count (drop staged.count (waiting self.new)))) ++ 0 ∷ []) }
        ensures inside { IfSome result (λ next. self.new.head + FRAME_SHARE + staged.len + FRAME_SHARE + next.len < self.new.tail.place + self.new.stream_bytes) }
        ensures listed { IfSome result (λ _. vec_len self.new.frames + 1 < vec_capacity self.new.frames) }
        ensures none { IsSpelled self.old → result ≡ None → (drop staged.count (waiting self.new) ≡ []) ⊎ HasNoRoomAfter self.new staged }
        ensures texts { IsSpelled self.old → IsSpelled self.new }
        ensures knows { (told : Told) → KnowsRoom self.old told → KnowsRoom self.new told }
    {
        let (count, len) = self.next_group(staged.count, staged.len);
        if count == 0 {
            return None;
        }
        let head = self.head + (1 + HEAD_BYTES + staged.len) as u64;
        let kept = head - self.tail.place;
        if kept + (1 + HEAD_BYTES + len) as u64 >= self.stream_bytes {
            return None;
        }
        self.frames.reserve(2).ok()?;
        let first = self.tail.first + (self.forced + staged.count) as u64;
        let encoded = self.encoded(alloc, staged.count, count, len).ok()?;
        let at = self.at_behind(staged);
        let texts = texts_for(self.read.is_some(), &encoded, &self.bytes, at, len);
        frame_bytes(&mut self.frame, first, texts).ok()?;
        Some(Staged { count, len })
    }
}
