//! The log device: a ring of frames with an index of them, the frame under way, and the records that wait for a force.
ghost use Rattle.std.specs.Prelude.{ℕ, ◌≡◌, ◌≢◌, ◌⊎◌, ◌↔◌, ◌+◌, ◌-◌, ◌*◌, ◌^◌, ◌<◌, ◌≤◌, [], ◌∷◌, ◌++◌, All, List, IsTrue, IsSome, IfSome, IfOk, IfErr, IsOk, OnOk, OnErr, length, take, drop, None, Some, Ok, Err, vec_capacity, vec_len};
ghost use Rattle.std.specs.Option.{ForSome};
ghost use Rattle.shore_types.specs.declared.layout.TheConstants.{FRAME_SHARE, LAST_OPENED, LOG_FRONT_BYTES, LONGEST_FRAME, MAX_FRAME_BYTES, MAX_LOG_BYTES};
ghost use Rattle.shore_disk.specs.Device.{size, LeavesOnly};
ghost use Rattle.shore_disk.specs.Cause.{HasCause};
ghost use Rattle.shore_model.specs.declared.log_records.LogRecord.{LogRecord};
ghost use Rattle.shore_logrec.specs.Text.{Fits, texts};
ghost use Rattle.shore_frames.specs.LoggedRecords.{are_numbered};
ghost use Rattle.shore_frames.specs.Frames.{behind_gate, GivesBehindFrom, GivesWithOrWithoutFrom, IsLongest};
ghost use Rattle.shore_log.specs.Indexes.{are_listed, first_in, place_in};
ghost use Rattle.shore_log.specs.Listed.{all_in};
ghost use Rattle.shore_log.specs.declared.tail.Told.{Told};

mod moving;
mod opening;
mod opening_on;
mod telling;

use crate::group::{frame_bytes, longest_group, texts_for};
use crate::texts::{decode_all, encode_all, let_go, longest_texts};
use crate::{PlainTail, Tail};
use http_server::Log as GhostLog;
use shore_disk::{Disk, FuseDisk};
use shore_frames::{FrameAt, HEAD_BYTES, write_ring_synced};
use shore_gate::{Anchors, OPEN};
use shore_logrec::LogRecord;
use shore_types::layout::MAX_FRAME_BYTES;
use shore_types::{Fault, Lsn};
use std::alloc::{AllocError, Global};

/// The number of the last durable record. Only the log makes one, so none is told before its force.
#[derive(Clone, Copy)]
pub struct Durable {
    // The number.
    lsn: Lsn,
}

impl Durable {
    pub fn number(self) -> Lsn
        ensures { result ≡ self.lsn }
    {
        self.lsn
    }
}

// A frame that stands behind a closed gate.
#[derive(Clone, Copy)]
struct Staged {
    // How many records it has: the first of those that wait.
    count: usize,
    // How many bytes these have on the device.
    len: usize,
}

/// The log on its device, in a ring. Its records are numbered, the first of all logs is number 1; those from the tail on are kept. The first of these are
/// forced, and the device has them; the others wait.
#[derive(Drop)]
pub struct LogDev<D: Disk> {
    // The device. Its label, its anchors and the frames behind open gates are as they were found, moved or forced.
    device: D,
    // The length of the stream.
    stream_bytes: u64,
    // The anchor that counts, and its slot: a log is read from its tail on.
    anchors: Anchors,
    // The oldest frame that is kept, or the next one where none is. The anchor names it.
    tail: FrameAt,
    // The frames that are kept, the oldest first.
    frames: Vec<FrameAt>,
    // Which records an open has found, and which came since. They take no memory: only proofs read them.
    found: GhostLog<Vec<LogRecord>, ()>,
    later: GhostLog<GhostLog<LogRecord, ()>, ()>,
    // How many of these are not kept any more, the first ones; then how many are kept, and how many of the kept ones are forced.
    gone: usize,
    count: usize,
    forced: usize,
    // All that were found and came since, from an open until some come from a log buffer.
    read: Option<Vec<LogRecord>>,
    // The texts of those that came from a log buffer and wait, behind so many bytes that are none.
    bytes: Vec<u8>,
    at: usize,
    // The place of the next frame.
    head: u64,
    // The frame that stands behind a closed gate at the head, if one does; `open_staged` makes its records forced.
    staged: Option<Staged>,
    // The bytes of the latest frame, whose memory the next one takes.
    frame: Vec<u8>,
    ghost numbered: { IsTrue (are_numbered tail.first (drop gone (all_in found.items later.items))) },
    ghost counted: { gone + count ≡ length (all_in found.items later.items) },
    ghost gone_below: { gone < tail.first },
    ghost few: { count ≤ 2 ^ 63 },
    ghost held: { ForSome read (λ v. (v.items ≡ all_in found.items later.items) × (bytes.items ≡ [])) },
    ghost little: { at + at ≤ length bytes.items },
    ghost spelled: { read ≡ None → drop at bytes.items ≡ texts (drop forced (drop gone (all_in found.items later.items))) },
    ghost some: { 0 < stream_bytes },
    ghost is_short: { stream_bytes ≤ MAX_LOG_BYTES },
    ghost as_long: { size (D.Disk.history device) ≡ LOG_FRONT_BYTES + stream_bytes },
    ghost forced_inside: { forced ≤ length (drop gone (all_in found.items later.items)) },
    ghost anchored: { (anchors.anchor.tail ≡ tail.first) × (anchors.anchor.tail_place ≡ tail.place) },
    ghost sequence: { anchors.anchor.sequence ≤ anchors.anchor.checkpoint + 1 },
    ghost tail_number: { tail.first ≤ LAST_OPENED },
    ghost tail_place: { tail.place + LONGEST_FRAME ≤ LONGEST_FRAME * tail.first },
    ghost listed: { IsTrue (are_listed head (tail.first + forced) frames.items) },
    ghost begins: { (tail.first ≡ first_in (tail.first + forced) frames.items) × (tail.place ≡ place_in head frames.items) },
    ghost rises: { tail.place ≤ head },
    ghost head_inside: { head < tail.place + stream_bytes },
    ghost places: { head + LONGEST_FRAME ≤ LONGEST_FRAME * (tail.first + forced) },
    ghost staged_inside: { ForSome staged (λ s. head + s.len + FRAME_SHARE < tail.place + stream_bytes) },
    ghost staged_waits: { ForSome staged (λ s. forced + s.count ≤ length (drop gone (all_in found.items later.items))) },
    ghost staged_long: { ForSome staged (λ s. s.len ≡ length (texts (take s.count (drop forced (drop gone (all_in found.items later.items)))))) },
    ghost staged_short: { ForSome staged (λ s. s.len ≤ MAX_FRAME_BYTES) },
    ghost staged_some: { ForSome staged (λ s. 1 ≤ s.count) },
    // The longest frame has its room, and so has an entry of the index for each record that came from a log buffer and waits: a force takes no memory.
    ghost room: { (LONGEST_FRAME ≤ vec_capacity frame) × (read ≡ None → vec_len frames + length (drop forced (drop gone (all_in found.items later.items))) ≤ vec_capacity frames) },
    ghost staged_listed: { ForSome staged (λ s. vec_len frames < vec_capacity frames) },
}

impl<D: Disk> LogDev<D> {
    ghost use Rattle.shore_log.specs.Settled.{HasList, HasNoFrameRoom, HasRecordRoom, IsAsBefore, IsSettledFrom, IsSpelled, IsStagedFrom, KeepsFrames, KnowsRoom, cut_of_log, records_of_log, stable, waiting};
    ghost use Rattle.shore_log.specs.PlainTails.{first_of, told_in, waiting_in};

    /// Takes all records that wait in the log buffer. `Memory` if an allocation failed, or while a record waits that `take` took: each stays where it was.
    pub fn take_in(&mut self, tail: &mut PlainTail) -> Result<(), Fault>
        requires { first_of tail.old ≡ cut_of_log self.old + 1 + length (records_of_log self.old) }
        ensures taken { OnOk result (records_of_log self.new ≡ records_of_log self.old ++ waiting_in tail.old) }
        ensures emptied { OnOk result (waiting_in tail.new ≡ []) }
        ensures next { first_of tail.new + length (waiting_in tail.new) ≡ first_of tail.old + length (waiting_in tail.old) }
        ensures refused { OnErr result ((records_of_log self.new ≡ records_of_log self.old) × (waiting_in tail.new ≡ waiting_in tail.old)) }
        ensures idle { KnowsRoom self.old (told_in tail.old) → IsSpelled self.old → IsOk result }
        ensures knows { OnOk result (KnowsRoom self.new (told_in tail.new)) }
        ensures aside { KnowsRoom self.old (told_in tail.old) → (told_in tail.new).aside ≡ (told_in tail.old).aside }
        ensures spelled { OnOk result (IsSpelled self.new) × (IsSpelled self.old → IsSpelled self.new) }
        ensures only_memory { IfErr result (λ fault. fault ≡ Fault.Memory) }
        ensures list { OnErr result (HasList self.old → HasList self.new) }
        ensures frames { KeepsFrames self.old self.new }
        ensures device { self.new.device ≡ self.old.device }
    {
        if !self.is_spelled() {
            return Err(Fault::Memory);
        }
        tail.bring_index(&mut self.frames, self.count - self.forced)?;
        let later = self.later.and(tail.listed(), &());
        let count = tail.hand_over(&mut self.bytes)?;
        self.count += count;
        self.later = later;
        self.read = None;
        Ok(())
    }

    // Whether the texts of all records that wait are there.
    fn is_spelled(&self) -> bool
        ensures spelled { IsTrue result → drop self.now.at self.now.bytes.items ≡ texts (waiting self.now) }
        ensures tells { IsTrue result ↔ IsSpelled self.now }
    {
        match &self.read {
            Some(_) => self.forced == self.count,
            None => true,
        }
    }

    /// Takes the memory for so many records more. `Memory` if an allocation failed, or once records came from a log buffer; no allocation is made if there is
    /// room for as many.
    pub fn reserve(&mut self, records: usize) -> Result<(), Fault>
        ensures room { OnOk result (HasRecordRoom self.new records) }
        ensures kept { (count : ℕ) → HasRecordRoom self.old count → HasRecordRoom self.new count }
        ensures idle { HasRecordRoom self.old records → IsOk result }
        ensures only_memory { IfErr result (λ fault. fault ≡ Fault.Memory) }
        ensures log { (records_of_log self.new ≡ records_of_log self.old) × (self.new.forced ≡ self.old.forced) }
        ensures frame { (self.new.head ≡ self.old.head) × (self.new.staged ≡ self.old.staged) }
        ensures list { HasList self.old → HasList self.new }
        ensures frames { KeepsFrames self.old self.new }
        ensures device { self.new.device ≡ self.old.device }
    {
        let Some(read) = &mut self.read else {
            return Err(Fault::Memory);
        };
        read.reserve(records)?;
        Ok(())
    }

    /// Takes a record behind those that it has, into memory that was taken for it: this cannot fail.
    pub fn take(&mut self, logged: LogRecord)
        requires room { HasRecordRoom self.old 1 }
        requires text { Fits logged }
        requires previous { logged.previous < cut_of_log self.old + 1 + length (records_of_log self.old) }
        ensures taken { records_of_log self.new ≡ records_of_log self.old ++ logged ∷ [] }
        ensures room { (count : ℕ) → HasRecordRoom self.old (count + 1) → HasRecordRoom self.new count }
        ensures forced { self.new.forced ≡ self.old.forced }
        ensures list { HasList self.new }
        ensures frame { (self.new.head ≡ self.old.head) × (self.new.staged ≡ self.old.staged) }
        ensures frames { KeepsFrames self.old self.new }
        ensures device { self.new.device ≡ self.old.device }
    {
        let Some(read) = &mut self.read else {
            unreachable!()
        };
        let one = GhostLog::new().and(&logged, &());
        self.later = self.later.and(&one, &());
        self.count += 1;
        read.push_reserved(logged);
    }

    /// Stages the longest list of waiting records that one frame holds: takes the room of its entry in the index, writes it behind the closed gate, with a
    /// closed gate behind it, and syncs. Answers the last number staged, and `None` if no record waits or a frame is under way. `LogFull` if there is no
    /// place for the frame and a byte behind it between head and tail, `Memory` if an allocation failed; after both the device was not called and each record
    /// waits that did. `Device` if the device failed: no frame is staged then.
    pub fn stage(&mut self, alloc: Global) -> Result<Option<Lsn>, Fault>
        // The staged records are the longest list that one frame holds.
        ensures staged { (tail place : ℕ) (front : List ℕ) → IsSettledFrom tail place self.old front → self.old.staged ≡ None → IfOk result (λ n. IfSome n (λ last.
            IsStagedFrom tail place self.new front (take (last - (cut_of_log self.old + self.old.forced)) (waiting self.old)))) }
        ensures longest { self.old.staged ≡ None → IfOk result (λ n. IfSome n (λ last.
            (cut_of_log self.old + self.old.forced < last) × IsLongest (waiting self.old) (last - (cut_of_log self.old + self.old.forced)))) }
        ensures frame { self.old.staged ≡ None → IfOk result (λ n. IfSome n (λ last. self.new.staged ≡ Some record {
          count = last - (cut_of_log self.old + self.old.forced);
          len = length (texts (take (last - (cut_of_log self.old + self.old.forced)) (waiting self.old)));
        })) }
        ensures none_waits { self.old.staged ≡ None → result ≡ Ok None → waiting self.old ≡ [] }
        ensures under_way { IsSome self.old.staged → result ≡ Ok None }
        ensures nothing { result ≡ Ok None → self.new ≡ self.old }

        // A crash at any moment of the call leaves the stable list from the tail on.
        ensures any_moment { (tail place : ℕ) (front : List ℕ) → IsSettledFrom tail place self.old front → self.old.staged ≡ None
            → LeavesOnly (D.history self.old.device) (D.history self.new.device) (GivesBehindFrom front tail place (stable self.old)) }

        ensures same { (records_of_log self.new ≡ records_of_log self.old) × (stable self.new ≡ stable self.old) }
        ensures tail { (self.new.tail ≡ self.old.tail) × (self.new.anchors ≡ self.old.anchors) }
        ensures list { HasList self.old → HasList self.new }
        ensures refused { IfErr result (λ fault. (fault ≡ Fault.Device) ⊎ (KeepsFrames self.old self.new × (self.new.device ≡ self.old.device))) }
        ensures leaves { IfErr result (λ fault. (fault ≡ Fault.Device) ⊎ IsAsBefore self.old self.new) }
        ensures others { IfErr result (λ fault. (fault ≡ Fault.Device) ⊎ (fault ≡ Fault.Memory) ⊎ (fault ≡ Fault.LogFull)) }
        ensures full { result ≡ Err Fault.LogFull → HasNoFrameRoom self.old }
        ensures none_staged { OnErr result (self.new.staged ≡ None) }
        // What a log buffer knows of its room holds still.
        ensures knows { (told : Told) → KnowsRoom self.old told → KnowsRoom self.new told }
        // It is never refused memory for records that came from a log buffer.
        ensures idle { IsSpelled self.old → result ≢ Err Fault.Memory }
        ensures spelled { IsSpelled self.old → IsSpelled self.new }
        ensures size { size (D.history self.new.device) ≡ size (D.history self.old.device) }
        ensures honest { D.is_honest self.new.device ≡ D.is_honest self.old.device }
        ensures cause { HasCause result (D.faults self.old.device) (D.faults self.new.device) }
    {
        if let Some(_) = self.staged {
            return Ok(None);
        }
        let (count, len) = self.next_group(0, 0);
        if count == 0 {
            return Ok(None);
        }
        let kept = self.head - self.tail.place;
        if kept + (1 + HEAD_BYTES + len) as u64 >= self.stream_bytes {
            return Err(Fault::LogFull);
        }
        let first = self.tail.first + self.forced as u64;
        let encoded = self.encoded(alloc, 0, count, len)?;
        let texts = texts_for(self.read.is_some(), &encoded, &self.bytes, self.at, len);
        frame_bytes(&mut self.frame, first, texts)?;
        self.frames.reserve(1)?;
        write_ring_synced(
            &mut self.device,
            self.stream_bytes,
            self.head + 1,
            &self.frame,
        )?;
        self.staged = Some(Staged { count, len });
        Ok(Some(Lsn(self.cut_off() + (self.forced + count) as u64)))
    }

    /// Opens the gate of the staged frame, and syncs. Answers the last durable number, and `None` if no frame is staged.
    pub fn open_staged(&mut self) -> Result<Option<Durable>, Fault>
        ensures settled { (tail place : ℕ) (front : List ℕ) (group : List LogRecord) → IsStagedFrom tail place self.old front group
            → OnOk result (IsSettledFrom tail place self.new front × (stable self.new ≡ stable self.old ++ group)) }
        ensures opened { IfOk result (λ n. IsSome n ↔ IsSome self.old.staged) }
        ensures grown { IfOk result (λ n. IfSome n (λ durable. (cut_of_log self.old + length (stable self.old) < durable.lsn) × (durable.lsn ≤ cut_of_log self.new + length (records_of_log self.new)))) }
        ensures frame { IfOk result (λ n. IfSome n (λ durable. ForSome self.old.staged (λ s. durable.lsn ≡ cut_of_log self.old + self.old.forced + s.count))) }
        ensures waited { OnErr result (IsSome self.old.staged) }
        ensures none_staged { OnOk result (self.new.staged ≡ None) }
        ensures durable { IfOk result (λ n. IfSome n (λ durable. durable.lsn ≡ cut_of_log self.new + length (stable self.new))) }
        // The next frame goes behind it.
        ensures next { IfOk result (λ n. IfSome n (λ _. ForSome self.old.staged (λ s. (self.new.head ≡ self.old.head + (FRAME_SHARE + s.len)) × (waiting self.new ≡ drop s.count (waiting self.old))))) }
        ensures spelled { IsSpelled self.old → IsSpelled self.new }
        ensures nothing { result ≡ Ok None → self.new ≡ self.old }

        // A crash at any moment of the call leaves the stable list from the tail on, with the frame that is staged or without it.
        ensures any_moment { (tail place : ℕ) (front : List ℕ) (group : List LogRecord) → IsStagedFrom tail place self.old front group
            → LeavesOnly (D.history self.old.device) (D.history self.new.device) (GivesWithOrWithoutFrom front tail place (stable self.old) group) }

        ensures same { records_of_log self.new ≡ records_of_log self.old }
        ensures tail { (self.new.tail ≡ self.old.tail) × (self.new.anchors ≡ self.old.anchors) }
        ensures list { HasList self.old → HasList self.new }
        // What a log buffer knows of its room holds still.
        ensures knows { (told : Told) → KnowsRoom self.old told → KnowsRoom self.new told }
        ensures only_device { IfErr result (λ fault. fault ≡ Fault.Device) }
        ensures unforced { OnErr result (stable self.new ≡ stable self.old) }
        ensures size { size (D.history self.new.device) ≡ size (D.history self.old.device) }
        ensures honest { D.is_honest self.new.device ≡ D.is_honest self.old.device }
        ensures cause { HasCause result (D.faults self.old.device) (D.faults self.new.device) }
    {
        let Some(staged) = self.staged else {
            return Ok(None);
        };
        let behind = self.at_behind(staged);
        write_ring_synced(&mut self.device, self.stream_bytes, self.head, &[OPEN])?;
        self.frames.push_reserved(FrameAt {
            first: self.tail.first + self.forced as u64,
            place: self.head,
        });
        self.staged = None;
        self.head += (1 + HEAD_BYTES + staged.len) as u64;
        self.forced += staged.count;
        self.at = let_go(&mut self.bytes, behind);
        Ok(Some(self.durable()))
    }

    // Where the texts begin that wait behind the staged frame.
    fn at_behind(&self, staged: Staged) -> usize
        requires { self.now.staged ≡ Some staged }
        ensures inside { result ≤ length self.now.bytes.items }
        ensures waits { self.now.read ≡ None → drop result self.now.bytes.items ≡ texts (drop (self.now.forced + staged.count) (records_of_log self.now)) }
    {
        match &self.read {
            Some(_) => self.at,
            None => self.at + staged.len,
        }
    }

    /// Forces one frame: stages it and opens its gate. Answers the last durable number, and `None` if no record waits or a frame is under
    /// way. `LogFull` and `Memory` as `stage`; `Device` if the device failed, and the frame may be staged then.
    pub fn append_frame(&mut self, alloc: Global) -> Result<Option<Durable>, Fault>
        ensures settled { (tail place : ℕ) (front : List ℕ) → IsSettledFrom tail place self.old front → self.old.staged ≡ None
            → OnOk result (IsSettledFrom tail place self.new front × (self.new.staged ≡ None)) }
        ensures forced { (tail place : ℕ) (front : List ℕ) → IsSettledFrom tail place self.old front → self.old.staged ≡ None → (count : ℕ) → IsLongest (waiting self.old) count
            → OnOk result (stable self.new ≡ stable self.old ++ take count (waiting self.old)) }

        // A crash at any moment of the call leaves the stable list from the tail on, with the longest group of waiting records or without it.
        ensures any_moment { (tail place : ℕ) (front : List ℕ) → IsSettledFrom tail place self.old front → self.old.staged ≡ None → (count : ℕ) → IsLongest (waiting self.old) count
            → LeavesOnly (D.history self.old.device) (D.history self.new.device) (GivesWithOrWithoutFrom front tail place (stable self.old) (take count (waiting self.old))) }

        ensures longest { self.old.staged ≡ None → IfOk result (λ n. IfSome n (λ durable.
            (cut_of_log self.old + self.old.forced < durable.lsn) × IsLongest (waiting self.old) (durable.lsn - (cut_of_log self.old + self.old.forced))
            × (durable.lsn ≡ cut_of_log self.new + length (stable self.new)))) }
        ensures none_waits { self.old.staged ≡ None → result ≡ Ok None → waiting self.old ≡ [] }
        ensures under_way { IsSome self.old.staged → result ≡ Ok None }
        ensures nothing { result ≡ Ok None → self.new ≡ self.old }
        ensures same { records_of_log self.new ≡ records_of_log self.old }
        ensures tail { (self.new.tail ≡ self.old.tail) × (self.new.anchors ≡ self.old.anchors) }
        ensures list { HasList self.old → HasList self.new }
        ensures unforced { OnErr result (stable self.new ≡ stable self.old) }
        ensures refused { IfErr result (λ fault. (fault ≡ Fault.Device) ⊎ (KeepsFrames self.old self.new × (self.new.device ≡ self.old.device))) }
        ensures leaves { IfErr result (λ fault. (fault ≡ Fault.Device) ⊎ IsAsBefore self.old self.new) }
        ensures others { IfErr result (λ fault. (fault ≡ Fault.Device) ⊎ (fault ≡ Fault.Memory) ⊎ (fault ≡ Fault.LogFull)) }
        ensures full { result ≡ Err Fault.LogFull → HasNoFrameRoom self.old }
        // What a log buffer knows of its room holds still.
        ensures knows { (told : Told) → KnowsRoom self.old told → KnowsRoom self.new told }
        ensures idle { IsSpelled self.old → result ≢ Err Fault.Memory }
        ensures unstaged { OnOk result (self.old.staged ≡ None → self.new.staged ≡ None) }
        ensures size { size (D.history self.new.device) ≡ size (D.history self.old.device) }
        ensures honest { D.is_honest self.new.device ≡ D.is_honest self.old.device }
        ensures cause { HasCause result (D.faults self.old.device) (D.faults self.new.device) }
    {
        match self.stage(alloc)? {
            Some(_) => self.open_staged(),
            None => Ok(None),
        }
    }

    // How many of the records that wait after the first so many of them one frame holds, and how many bytes these have.
    fn next_group(&self, passed: usize, passed_len: usize) -> (usize, usize)
        requires within { passed ≤ length (waiting self.now) }
        requires len { passed_len ≡ length (texts (take passed (waiting self.now))) }
        ensures longest { IsLongest (drop passed (waiting self.now)) result.0 }
        ensures len { result.1 ≡ length (texts (take result.0 (drop passed (waiting self.now)))) }
        ensures fit { All Fits (drop passed (waiting self.now)) }
    {
        match &self.read {
            Some(read) => longest_group(&read[self.gone + self.forced + passed..]),
            None if self.bytes.len() - (self.at + passed_len) <= MAX_FRAME_BYTES => {
                (
                    self.count - self.forced - passed,
                    self.bytes.len() - (self.at + passed_len),
                )
            }
            None => longest_texts(&self.bytes[self.at + passed_len..]),
        }
    }

    // The texts of so many of them after the first `passed`, if they are in memory as records: no text, and no allocation, once records came from a log buffer.
    fn encoded(
        &self,
        alloc: Global,
        passed: usize,
        count: usize,
        len: usize,
    ) -> Result<Vec<u8>, AllocError>
        requires within { passed + count ≤ length (waiting self.now) }
        ensures texts { IsSome self.now.read → IfOk result (λ v. v.items ≡ texts (take count (drop passed (waiting self.now)))) }
        ensures idle { self.now.read ≡ None → IsOk result }
    {
        let mut texts = Vec::new(alloc);
        if let Some(read) = &self.read {
            let waiting = &read[self.gone + self.forced + passed..];
            texts.reserve(len)?;
            encode_all(&waiting[..count], &mut texts)?;
        }
        Ok(texts)
    }

    /// How many records of the log stand before those that are kept.
    pub fn cut_off(&self) -> u64
        ensures { result ≡ cut_of_log self.now }
    {
        self.tail.first - 1
    }

    /// The last durable number, 0 if there is none.
    pub fn durable(&self) -> Durable
        ensures { result.lsn ≡ cut_of_log self.now + length (stable self.now) }
    {
        Durable {
            lsn: Lsn(self.cut_off() + self.forced as u64),
        }
    }

    /// The number of the last record, 0 if there is none.
    pub fn last(&self) -> Lsn
        ensures { result ≡ cut_of_log self.now + length (records_of_log self.now) }
    {
        Lsn(self.cut_off() + self.count as u64)
    }

    /// Every record that is kept, in the order of their numbers, until records come from a log buffer; None from then on.
    pub fn records(&self) -> Option<&[LogRecord]>
        ensures some { IsSome result ↔ HasList self.now }
        ensures log { IfSome result (λ records. records.now ≡ records_of_log self.now) }
        ensures fit { IfSome result (λ records. All Fits records.now) }
    {
        match &self.read {
            Some(read) => Some(&read[self.gone..]),
            None => None,
        }
    }

    /// Copies of the records that wait for a force, those of a staged frame among them.
    pub fn waiting(&self, alloc: Global) -> Result<Vec<LogRecord>, AllocError>
        ensures { IfOk result (λ records. records.items ≡ waiting self.now) }
    {
        match &self.read {
            Some(read) => {
                let mut texts = Vec::new(alloc);
                encode_all(&read[self.gone + self.forced..], &mut texts)?;
                decode_all(alloc, &texts)
            }
            None => decode_all(alloc, &self.bytes[self.at..]),
        }
    }

    /// Whether a frame is staged and its gate not yet opened.
    pub fn is_staged(&self) -> bool
        ensures { IsTrue result ↔ IsSome self.now.staged }
    {
        self.staged.is_some()
    }

    /// The length of the stream.
    pub fn stream_bytes(&self) -> u64
        ensures { LOG_FRONT_BYTES + result ≡ size (D.history self.now.device) }
    {
        self.stream_bytes
    }

    /// Gives the device back.
    pub fn into_device(self) -> D
        ensures { result ≡ self.device }
    {
        self.device
    }
}

impl<D: Disk> LogDev<FuseDisk<D>> {
    ghost use Rattle.shore_disk.specs.Fuse.{fuse_inner, fuse_calls, fuse_refused};
    ghost use Rattle.shore_log.specs.Settled.{HasList, IsSpelled, KeepsFrames, KnowsRoom, records_of_log};

    /// Lets so many more writes and syncs of the device pass; then every call of it fails.
    pub fn set_fuse(&mut self, calls: u64)
        ensures inner { fuse_inner self.new.device ≡ fuse_inner self.old.device }
        ensures calls { fuse_calls self.new.device ≡ calls }
        ensures refused { fuse_refused self.new.device ≡ fuse_refused self.old.device }
        ensures log { (records_of_log self.new ≡ records_of_log self.old) × (self.new.forced ≡ self.old.forced) }
        ensures frame { (self.new.head ≡ self.old.head) × (self.new.staged ≡ self.old.staged) }
        ensures tail { (self.new.tail ≡ self.old.tail) × (self.new.anchors ≡ self.old.anchors) }
        ensures list { HasList self.old → HasList self.new }
        ensures knows { (told : Told) → KnowsRoom self.old told → KnowsRoom self.new told }
        ensures spelled { IsSpelled self.old → IsSpelled self.new }
        ensures frames { KeepsFrames self.old self.new }
    {
        self.device.set_calls(calls);
    }
}
