//! The move of the anchor, by which the front of a log is let go; and the frame that holds a record.
ghost use Rattle.std.specs.Prelude.{ℕ, ◌≡◌, ◌+◌, ◌-◌, ◌*◌, ◌^◌, ◌<◌, ◌≤◌, ◌++◌, List, IsTrue, IfErr, IfOk, OnErr, OnOk, Some, length, slice_get, take};
ghost use Rattle.shore_types.specs.declared.faults.Fault.TheVariants as Fault;
ghost use Rattle.shore_types.specs.declared.layout.TheConstants.{FRAME_SHARE, LAST_OPENED};
ghost use Rattle.shore_disk.specs.Cause.{HasCause};
ghost use Rattle.shore_disk.specs.Device.{LeavesOnly, seen, size};
ghost use Rattle.shore_gate.specs.Anchor.{offset_of, other_of};
ghost use Rattle.shore_gate.specs.Moves.{moved};
ghost use Rattle.shore_model.specs.declared.log_records.LogRecord.{LogRecord};
ghost use Rattle.shore_logrec.specs.Text.{texts};
ghost use Rattle.shore_frames.specs.Frames.{joined, number_behind};
ghost use Rattle.shore_frames.specs.Offsets.{IsFrameOf};
ghost use Rattle.shore_frames.specs.Streams.{index_of};
ghost use Rattle.shore_log.specs.Indexes.{AreBelow, IsInGroup, frame_with};
ghost use Rattle.shore_log.specs.declared.tail.Told.{Told};

use super::LogDev;
use shore_disk::Disk;
use shore_frames::{FrameAt, byte_of};
use shore_gate::{Anchor, Anchors};
use shore_types::layout::FRAME_SHARE;
use shore_types::{Fault, Lsn};

// The anchor behind these: a log is read from this frame on, with this checkpoint.
fn anchor_behind(anchors: &Anchors, checkpoint: Lsn, tail: FrameAt) -> Anchor
    requires { anchors.now.anchor.sequence + 1 < 2 ^ 64 }
    ensures { result ≡ record { sequence = anchors.now.anchor.sequence + 1; checkpoint = checkpoint; tail = tail.first; tail_place = tail.place } }
{
    Anchor {
        sequence: anchors.anchor.sequence + 1,
        checkpoint,
        tail: Lsn(tail.first),
        tail_place: tail.place,
    }
}

impl<D: Disk> LogDev<D> {
    ghost use Rattle.shore_log.specs.Settled.{FreesBelow, HasList, HoldsFrom, IsSpelled, KnowsRoom, IsAnchored, IsCutTo, IsLeftByMove, IsSettledFrom, IsStagedFrom, LosesFront, anchor_of, cut_of_log, next_anchor, records_of_log, stable, waiting};

    /// The number of the checkpoint that the log is read with, 0 for none.
    pub fn checkpoint(&self) -> Lsn
        ensures { result ≡ (anchor_of self.now).checkpoint }
    {
        self.anchors.anchor.checkpoint
    }

    /// The byte of the anchor that counts.
    pub fn anchor_offset(&self) -> u64
        ensures { result ≡ offset_of self.now.anchors.slot }
    {
        self.anchors.slot.offset()
    }

    /// What the records of the forced frames cost that lie wholly below the record of this number: as much is freed once that is the first to be kept.
    pub fn cost_below(&self, number: Lsn) -> u64
        ensures freed { (tail place : ℕ) (groups : List (List LogRecord)) → HoldsFrom tail place self.now groups → tail ≤ number
            → (kept_from : ℕ) × FreesBelow self.now number kept_from result × ((before : List (List LogRecord)) × AreBelow tail groups number before kept_from) }
        ensures none { number ≤ cut_of_log self.now → result ≡ 0 }
    {
        let next = self.tail.first + self.forced as u64;
        if number.0 >= next {
            let end = FrameAt {
                first: next,
                place: self.head,
            };
            return self.cost_before(end, self.frames.len());
        }
        if self.frames.is_empty() {
            return 0;
        }
        let before = self.frames_before(number);
        self.cost_before(self.frames[before], before)
    }

    // What the records before a frame cost, which are in so many frames. Each costs its text, and what a frame of its own would have beside it.
    fn cost_before(&self, frame: FrameAt, frames: usize) -> u64
        requires number { (self.now.tail.first + frames ≤ frame.first) × (frame.first ≤ self.now.tail.first + self.now.forced) }
        requires place { (self.now.tail.place ≤ frame.place) × (frame.place ≤ self.now.head) }
        ensures { result ≡ (frame.place - self.now.tail.place) + FRAME_SHARE * (frame.first - self.now.tail.first - frames) }
    {
        let records = frame.first - self.tail.first;
        frame.place - self.tail.place + FRAME_SHARE * (records - frames as u64)
    }

    /// Moves the anchor to a checkpoint and to the frame that holds the record of this number; then lets the frames before that go, and answers what their
    /// records cost. A frame may be under way. `Device` if the device failed: then the old anchor counts or the new one, and nobody knows which.
    pub fn move_anchor(&mut self, checkpoint: Lsn, number: Lsn) -> Result<u64, Fault>
        requires kept { cut_of_log self.old < number }
        requires below { number ≤ checkpoint }
        requires forced { checkpoint ≤ cut_of_log self.old + length (stable self.old) }
        requires last { number ≤ LAST_OPENED }
        requires later { (anchor_of self.old).checkpoint < checkpoint }

        // The next anchor counts, in the other slot, and the log is settled behind it, or a frame is staged as before.
        ensures moved { OnOk result (self.new.anchors ≡ record { slot = other_of self.old.anchors.slot; anchor = next_anchor self.old checkpoint number }) }
        ensures settled { (tail place : ℕ) (front : List ℕ) → IsSettledFrom tail place self.old front
            → OnOk result (IsSettledFrom (anchor_of self.new).tail (anchor_of self.new).tail_place self.new (moved self.old.anchors (anchor_of self.new) front)) }
        ensures staged { (tail place : ℕ) (front : List ℕ) (group : List LogRecord) → IsStagedFrom tail place self.old front group
            → OnOk result (IsStagedFrom (anchor_of self.new).tail (anchor_of self.new).tail_place self.new (moved self.old.anchors (anchor_of self.new) front) group) }
        ensures anchored { (tail place : ℕ) (front : List ℕ) → IsSettledFrom tail place self.old front → IsAnchored self.old front
            → OnOk result (IsAnchored self.new (moved self.old.anchors (anchor_of self.new) front)) }

        // What is kept begins at the frame that holds the record of this number, and what was before it is freed.
        ensures cut { (tail place : ℕ) (groups : List (List LogRecord)) → HoldsFrom tail place self.old groups → OnOk result (IsCutTo tail place groups number self.new) }
        ensures freed { (tail place : ℕ) (groups : List (List LogRecord)) → HoldsFrom tail place self.old groups
            → IfOk result (λ freed. FreesBelow self.old number (anchor_of self.new).tail freed) }
        ensures lost { OnOk result (LosesFront self.old self.new) }

        // A crash at any moment of the call leaves the old anchor as the one that counts, or the next one.
        ensures any_moment { (tail place : ℕ) (front : List ℕ) → IsSettledFrom tail place self.old front → IsAnchored self.old front
            → LeavesOnly (D.history self.old.device) (D.history self.new.device) (IsLeftByMove self.old.anchors (next_anchor self.old checkpoint number) front (stable self.old)) }

        ensures not_moved { OnErr result ((self.new.anchors ≡ self.old.anchors) × (self.new.tail ≡ self.old.tail)) }
        ensures same { OnErr result ((records_of_log self.new ≡ records_of_log self.old) × (self.new.forced ≡ self.old.forced) × (self.new.staged ≡ self.old.staged)) }
        ensures index { OnErr result ((self.new.frames ≡ self.old.frames) × (self.new.head ≡ self.old.head)) }
        // What a log buffer knows of its room holds still.
        ensures knows { (told : Told) → KnowsRoom self.old told → KnowsRoom self.new told }
        ensures spelled { IsSpelled self.old → IsSpelled self.new }
        ensures only_device { IfErr result (λ fault. fault ≡ Fault.Device) }
        ensures size { size (D.history self.new.device) ≡ size (D.history self.old.device) }
        ensures honest { D.is_honest self.new.device ≡ D.is_honest self.old.device }
        ensures cause { HasCause result (D.faults self.old.device) (D.faults self.new.device) }
    {
        let before = self.frames_before(number);
        let tail = self.frames[before];
        let freed = self.cost_before(tail, before);
        let anchor = anchor_behind(&self.anchors, checkpoint, tail);
        let mut anchors = self.anchors;
        anchors.move_to(&mut self.device, anchor)?;
        self.cut(anchors, before);
        Ok(freed)
    }

    // Lets so many frames go, the oldest ones: the anchor names the next. The device is not called.
    fn cut(&mut self, anchors: Anchors, before: usize)
        requires there { slice_get self.old.frames.items before ≡ Some (record { first = anchors.anchor.tail; place = anchors.anchor.tail_place }) }
        requires sequence { anchors.anchor.sequence ≤ anchors.anchor.checkpoint + 1 }
        requires last { anchors.anchor.tail ≤ LAST_OPENED }
        ensures anchors { self.new.anchors ≡ anchors }
        ensures cut { (tail place : ℕ) (front : List ℕ) → IsSettledFrom tail place self.old front → IsSettledFrom self.new.tail.first self.new.tail.place self.new front }
        ensures under_way { (tail place : ℕ) (front : List ℕ) (group : List LogRecord) → IsStagedFrom tail place self.old front group
            → IsStagedFrom self.new.tail.first self.new.tail.place self.new front group }
        ensures lost { LosesFront self.old self.new }
        ensures knows { (told : Told) → KnowsRoom self.old told → KnowsRoom self.new told }
        ensures spelled { IsSpelled self.old → IsSpelled self.new }
        ensures device { self.new.device ≡ self.old.device }
    {
        let tail = self.frames[before];
        let records = (tail.first - self.tail.first) as usize;
        self.anchors = anchors;
        self.gone += records;
        self.count -= records;
        self.forced -= records;
        self.tail = tail;
        let left = self.frames.len() - before;
        self.frames.rotate_left(before);
        self.frames.truncate(left);
    }

    // How many frames stand before the one that holds the record of a number; none, if that is below the tail.
    fn frames_before(&self, number: Lsn) -> usize
        ensures within { 0 < length self.now.frames.items → result < length self.now.frames.items }
        ensures is { 0 < length self.now.frames.items → self.now.tail.first ≤ number → slice_get self.now.frames.items result ≡ Some (frame_with number self.now.tail self.now.frames.items) }
        ensures below { 0 < length self.now.frames.items → self.now.tail.first ≤ number → (frame_with number self.now.tail self.now.frames.items).first ≤ number }
        ensures holds { (tail place : ℕ) (groups : List (List LogRecord)) → self.now.frames.items ≡ index_of tail place groups → tail ≤ number → number < number_behind tail groups
            → IsInGroup tail groups number result }
        ensures low { number < self.now.tail.first → result ≡ 0 }
    {
        let not_behind = self.frames.partition_point(|frame| frame.first <= number.0);
        not_behind.saturating_sub(1)
    }

    /// The byte of the frame that holds the record of a stable number, where it is kept.
    pub fn frame_of(&self, number: Lsn) -> u64
        ensures { (tail place : ℕ) (front : List ℕ) → IsSettledFrom tail place self.now front → tail ≤ number → number ≤ cut_of_log self.now + length (stable self.now)
            → IsFrameOf tail place (seen (D.history self.now.device)) number result }
    {
        if self.frames.is_empty() {
            return byte_of(self.stream_bytes, self.tail.place);
        }
        let at = self.frames[self.frames_before(number)];
        byte_of(self.stream_bytes, at.place)
    }
}
