//! Opens of a log, and what is read of its device again.
ghost use Rattle.std.specs.Prelude.{ℕ, ◌≡◌, ◌⊎◌, ◌↔◌, ◌<◌, ◌≤◌, List, IsTrue, IfOk, IfErr, IfSome, take, None, Err, false, vec_capacity};
ghost use Rattle.shore_types.specs.declared.faults.Device.TheVariants as Device;
ghost use Rattle.shore_types.specs.declared.layout.TheConstants.{LENGTH_AT, LOG_FRONT_BYTES, LONGEST_FRAME, MAX_LOG_BYTES};
ghost use Rattle.shore_disk.specs.Device.{size, seen, Stands};
ghost use Rattle.shore_disk.specs.Cause.{HasCause};
ghost use Rattle.shore_model.specs.declared.log_records.LogRecord.{LogRecord};
ghost use Rattle.shore_gate.specs.Anchor.{Counts, MayCount, may_count, offset_of};
ghost use Rattle.shore_frames.specs.Frames.{GivesFrom};
ghost use Rattle.shore_frames.specs.Offsets.{IsBadAt, RefusesReading};
ghost use Rattle.shore_log.specs.declared.tail.Told.{Told};

use super::LogDev;
use http_server::Log as GhostLog;
use shore_disk::Disk;
use shore_frames::{FrameAt, Stream, read_stream};
use shore_gate::{Anchor, Anchors};
use shore_logrec::LogRecord;
use shore_types::layout::{LAST_OPENED, LENGTH_AT, LOG_FRONT_BYTES, LONGEST_FRAME, MAX_LOG_BYTES};
use shore_types::{Device, Fault};
use std::alloc::Global;

// Whether a device of this length has a stream of frames, and is no longer than a log may be.
fn has_stream(device_bytes: u64) -> bool
    ensures { IsTrue result ↔ ((LOG_FRONT_BYTES < device_bytes) × (device_bytes ≤ MAX_LOG_BYTES)) }
{
    device_bytes > LOG_FRONT_BYTES && device_bytes <= MAX_LOG_BYTES
}

// Whether an anchor is within its limits.
fn may_count(anchors: &Anchors) -> bool
    ensures { result ≡ may_count anchors.now.anchor }
{
    let Anchor {
        sequence,
        checkpoint,
        tail,
        tail_place,
    } = anchors.anchor;
    let tail = tail.0;
    tail >= 1
        && tail <= LAST_OPENED
        && tail_place <= LONGEST_FRAME * (tail - 1)
        && sequence >= 1
        && sequence - 1 <= checkpoint.0
        && (checkpoint.0 == 0 || tail <= checkpoint.0)
}

// The frame that it names.
fn tail_of(anchors: &Anchors) -> FrameAt
    ensures { result ≡ record { first = anchors.now.anchor.tail; place = anchors.now.anchor.tail_place } }
{
    FrameAt {
        first: anchors.anchor.tail.0,
        place: anchors.anchor.tail_place,
    }
}

// The memory of the longest frame.
fn room_of_a_frame(alloc: Global) -> Option<Vec<u8>>
    ensures { IfSome result (λ v. LONGEST_FRAME ≤ vec_capacity v) }
{
    Vec::with_capacity(alloc, LONGEST_FRAME as usize).ok()
}

impl<D: Disk> LogDev<D> {
    ghost use Rattle.shore_log.specs.Settled.{HasList, IsAnchored, IsSettledFrom, IsSpelled, KeepsFrames, KnowsRoom, records_of_log, stable, device_of, fault_of};

    /// Opens the log of a device that is formatted, whose anchor is this one: reads its frames, from the anchor's tail on. `Damaged` at the first offset where
    /// neither a closed gate nor a whole frame stands, at the label's length if no log has that length, and at the anchor if no anchor is within the limits of this
    /// one; `Device` if the device failed, `Memory` if an allocation failed. The device is handed back then.
    pub fn open(alloc: Global, device: D, anchors: Anchors) -> Result<LogDev<D>, (Fault, D)>
        // What is opened is settled, and all of its records are stable.
        ensures settled { IsTrue (D.is_honest device) → (image : List ℕ) → Stands (D.history device) image → IfOk result (λ log. IsSettledFrom anchors.anchor.tail anchors.anchor.tail_place log (take LOG_FRONT_BYTES image)) }
        ensures none_waits { IfOk result (λ log. (log.staged ≡ None) × (stable log ≡ records_of_log log)) }
        ensures list { IfOk result (λ log. HasList log) }
        ensures anchors { IfOk result (λ log. log.anchors ≡ anchors) }
        ensures anchored { IsTrue (D.is_honest device) → (image : List ℕ) → Stands (D.history device) image → Counts image anchors.slot anchors.anchor
            → IfOk result (λ log. IsAnchored log (take LOG_FRONT_BYTES image)) }

        // The records are those that the device's frames give, and no others.
        ensures found { IsTrue (D.is_honest device) → IfOk result (λ log. GivesFrom anchors.anchor.tail anchors.anchor.tail_place (records_of_log log) (seen (D.history device))) }
        ensures only { IsTrue (D.is_honest device) → (rs : List LogRecord) → GivesFrom anchors.anchor.tail anchors.anchor.tail_place rs (seen (D.history device))
            → IfOk result (λ log. records_of_log log ≡ rs) }

        // A device of a log's length with all of its frames within is opened.
        ensures undamaged { IsTrue (D.is_honest device) → size (D.history device) ≤ MAX_LOG_BYTES → MayCount anchors.anchor
            → (rs : List LogRecord) → GivesFrom anchors.anchor.tail anchors.anchor.tail_place rs (seen (D.history device)) → IfErr result (λ e. (e.0 ≡ Fault.Device) ⊎ (e.0 ≡ Fault.Memory)) }
        ensures damaged { IsTrue (D.is_honest device)
            → LOG_FRONT_BYTES < size (D.history device) → size (D.history device) ≤ MAX_LOG_BYTES → MayCount anchors.anchor
            → (offset : ℕ) → IfErr result (λ e. e.0 ≡ Fault.Damaged Device.Log offset → IsBadAt anchors.anchor.tail anchors.anchor.tail_place (seen (D.history device)) offset) }
        ensures outside { (size (D.history device) ≤ LOG_FRONT_BYTES) ⊎ (MAX_LOG_BYTES < size (D.history device))
            → result ≡ Err (Fault.Damaged Device.Log LENGTH_AT, device) }
        ensures limits { LOG_FRONT_BYTES < size (D.history device) → size (D.history device) ≤ MAX_LOG_BYTES → may_count anchors.anchor ≡ false
            → result ≡ Err (Fault.Damaged Device.Log (offset_of anchors.slot), device) }
        ensures refused { IfErr result (λ e. RefusesReading e.0) }

        // The device that is opened or handed back is as it was.
        ensures same { IsTrue (D.is_honest device) → D.history (device_of result) ≡ D.history device }
        ensures honest { D.is_honest (device_of result) ≡ D.is_honest device }
        ensures size { size (D.history (device_of result)) ≡ size (D.history device) }
        ensures cause { HasCause (fault_of result) (D.faults device) (D.faults (device_of result)) }
    {
        let mut device = device;
        let device_bytes = device.len();
        if !has_stream(device_bytes) {
            return Err((Fault::damaged(Device::Log, LENGTH_AT), device));
        }
        if !may_count(&anchors) {
            return Err((Fault::damaged(Device::Log, anchors.slot.offset()), device));
        }
        let Some(frame) = room_of_a_frame(alloc) else {
            return Err((Fault::Memory, device));
        };
        let stream_bytes = device_bytes - LOG_FRONT_BYTES;
        let tail = tail_of(&anchors);
        match read_stream(alloc, &mut device, stream_bytes, tail.first, tail.place) {
            Ok(
                Stream {
                    records,
                    frames,
                    end,
                },
            ) => {
                let found = GhostLog::new().and(&records, &());
                let later = GhostLog::new();
                let count = records.len();
                let bytes = Vec::new(alloc);
                Ok(LogDev {
                    device,
                    stream_bytes,
                    anchors,
                    tail,
                    frames,
                    found,
                    later,
                    gone: 0,
                    count,
                    forced: count,
                    read: Some(records),
                    bytes,
                    at: 0,
                    head: end,
                    staged: None,
                    frame,
                })
            }
            Err(fault) => Err((fault, device)),
        }
    }

    /// Reads the stable records from the device once more, from the tail on. `Damaged` at the first byte where neither a closed gate nor a whole frame
    /// stands, `Device` if the device failed, `Memory` if an allocation failed; nothing has changed.
    pub fn read_from(&mut self, alloc: Global) -> Result<Vec<LogRecord>, Fault>
        ensures found { IsTrue (D.is_honest self.old.device) → IfOk result (λ read. GivesFrom self.old.tail.first self.old.tail.place read.items (seen (D.history self.old.device))) }
        ensures only { IsTrue (D.is_honest self.old.device) → (rs : List LogRecord) → GivesFrom self.old.tail.first self.old.tail.place rs (seen (D.history self.old.device))
            → IfOk result (λ read. read.items ≡ rs) }
        ensures undamaged { IsTrue (D.is_honest self.old.device) → (rs : List LogRecord) → GivesFrom self.old.tail.first self.old.tail.place rs (seen (D.history self.old.device))
            → IfErr result (λ fault. (fault ≡ Fault.Device) ⊎ (fault ≡ Fault.Memory)) }
        ensures damaged { IsTrue (D.is_honest self.old.device) → (offset : ℕ) → result ≡ Err (Fault.Damaged Device.Log offset)
            → IsBadAt self.old.tail.first self.old.tail.place (seen (D.history self.old.device)) offset }
        ensures refused { IfErr result RefusesReading }
        ensures frames { KeepsFrames self.old self.new }
        ensures knows { (told : Told) → KnowsRoom self.old told → KnowsRoom self.new told }
        ensures spelled { IsSpelled self.old → IsSpelled self.new }
        ensures log { records_of_log self.new ≡ records_of_log self.old }
        ensures same { IsTrue (D.is_honest self.old.device) → D.history self.new.device ≡ D.history self.old.device }
        ensures honest { D.is_honest self.new.device ≡ D.is_honest self.old.device }
        ensures size { size (D.history self.new.device) ≡ size (D.history self.old.device) }
        ensures cause { HasCause result (D.faults self.old.device) (D.faults self.new.device) }
    {
        let FrameAt { first, place } = self.tail;
        let read = read_stream(alloc, &mut self.device, self.stream_bytes, first, place)?;
        Ok(read.records)
    }
}
