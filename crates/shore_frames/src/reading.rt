//! Reading the frames of a log device, from its tail on, in one pass.
ghost use Rattle.std.specs.Prelude.{◌≡◌, ◌⊎◌, ◌↔◌, ◌+◌, ◌<◌, ◌≤◌, ◌^◌, IsTrue, ◌++◌, List, ℕ, length, take, drop, Ok, Err, None, IsSome, IfSome, IfOk, IfErr};
ghost use Rattle.shore_types.specs.declared.layout.TheConstants.{FRAME_SHARE, LAST_OPENED, LOG_FRONT_BYTES, MAX_FRAME_BYTES, MAX_LOG_BYTES};
ghost use Rattle.shore_disk.specs.Device.{size, seen};
ghost use Rattle.shore_disk.specs.Cause.{HasCause};
ghost use Rattle.shore_model.specs.declared.log_records.LogRecord.{LogRecord};
ghost use Rattle.shore_logrec.specs.Text.{Fits, texts};
ghost use Rattle.shore_logrec.specs.Text as logrec;
ghost use Rattle.shore_frames.specs.Frames.{AreNumbered, Frames, IsGroup, frame_head};
ghost use Rattle.shore_frames.specs.Reading.{Reads, ReadsOne};
ghost use Rattle.shore_frames.specs.Offsets.{GateAt, HeadAt, BodyAt, IsFrameAt, HasNoFrame, IsBadAt, RefusesReading};
ghost use Rattle.shore_frames.specs.Places.{from_place, stream_of};
ghost use Rattle.shore_frames.specs.Streams.{IsStreamOf, view_of};
ghost use Rattle.shore_frames.specs.declared.reading.ReadError.TheVariants.{Memory};

use crate::byte_of;
use crate::view::View;
use byteorder::{ByteOrder, LittleEndian};
use shore_disk::Disk;
use shore_gate::is_open;
use shore_logrec::{LogRecord, decode};
use shore_types::layout::MAX_FRAME_BYTES;
use shore_types::{Device, Fault};
use std::alloc::{AllocError, AllocFailed, Global};

/// The bytes between a frame's gate and its records: their length (4) and the first one's number (8).
pub const HEAD_BYTES: usize = 12;

/// Where a frame stands.
#[derive(Clone, Copy)]
pub struct FrameAt {
    /// The number of its first record.
    pub first: u64,
    /// The place of its gate.
    pub place: u64,
}

/// What the frames of a device give, from the tail on.
#[derive(Drop)]
pub struct Stream {
    /// The records, in the order of their numbers.
    pub records: Vec<LogRecord>,
    /// Their frames, the oldest first.
    pub frames: Vec<FrameAt>,
    /// The place of the closed gate behind the last frame.
    pub end: u64,
}

// Why bytes were not read as records.
enum ReadError {
    NoText,
    Memory,
}

impl From<AllocError> for ReadError {
    ghost from_gives = { λ _ e. e ≡ Memory };

    fn from(_: AllocError) -> ReadError {
        ReadError::Memory
    }
}

impl<T: Drop> From<AllocFailed<T>> for ReadError {
    ghost from_gives = { λ _ e. e ≡ Memory };

    fn from(_: AllocFailed<T>) -> ReadError {
        ReadError::Memory
    }
}

// What stands behind an open gate.
#[derive(Clone, Copy)]
struct Head {
    // The bytes of the frame's records.
    len: u32,
    // The number of the first of them.
    first: u64,
}

/// Reads the frames of a device from its tail on: the first record has that number, and its frame that place. `Damaged` at the first byte where neither a
/// closed gate nor a whole frame stands, `Device` if the device failed, `Memory` if an allocation failed.
pub fn read_stream<D: Disk>(
    alloc: Global,
    device: &mut D,
    stream_bytes: u64,
    tail: u64,
    place: u64,
) -> Result<Stream, Fault>
    requires size { size (D.history device.old) ≡ LOG_FRONT_BYTES + stream_bytes }
    requires some { 0 < stream_bytes }
    requires short { stream_bytes ≤ MAX_LOG_BYTES }
    requires tail { tail ≤ LAST_OPENED }
    requires places { place ≤ 2 ^ 63 }
    ensures groups { IfOk result (λ s. (gs : List (List LogRecord)) × IsStreamOf tail place gs s) }
    ensures end { IfOk result (λ s. s.end < place + stream_bytes) }

    // What an honest device holds is frames, and these are their records.
    ensures found { IsTrue (D.is_honest device.old) → IfOk result (λ s. (gs : List (List LogRecord))
        × Frames tail (from_place place (stream_of (seen (D.history device.old)))) gs × IsStreamOf tail place gs s) }

    // No other records are read of it.
    ensures only { IsTrue (D.is_honest device.old) → (gs : List (List LogRecord)) → Frames tail (from_place place (stream_of (seen (D.history device.old)))) gs
        → IfOk result (IsStreamOf tail place gs) }

    // If it holds frames, they are read.
    ensures undamaged { IsTrue (D.is_honest device.old) → (gs : List (List LogRecord)) → Frames tail (from_place place (stream_of (seen (D.history device.old)))) gs
        → IfErr result (λ fault. (fault ≡ Fault.Device) ⊎ (fault ≡ Fault.Memory)) }

    ensures damaged { IsTrue (D.is_honest device.old) → (offset : ℕ) → result ≡ Err (Fault.Damaged Device.Log offset)
        → IsBadAt tail place (seen (D.history device.old)) offset }
    ensures refused { IfErr result RefusesReading }
    ensures same { IsTrue (D.is_honest device.old) → D.history device.new ≡ D.history device.old }
    ensures honest { D.is_honest device.new ≡ D.is_honest device.old }
    ensures size { size (D.history device.new) ≡ size (D.history device.old) }
    ensures cause { HasCause result (D.faults device.old) (D.faults device.new) }
{
    let view = View {
        stream_bytes,
        place,
    };
    let mut records = Vec::new(alloc);
    let mut frames = Vec::new(alloc);
    let mut at = 0;
    while is_gate_open(device, &view, at)? {
        let first = tail + records.len() as u64;
        let Some((mut group, len)) = read_frame(alloc, device, &view, at, first)? else {
            return Err(Fault::damaged(Device::Log, byte_of(stream_bytes, place + at)));
        };
        records.append(&mut group)?;
        frames.push(FrameAt {
            first,
            place: place + at,
        })?;
        at += (1 + HEAD_BYTES + len) as u64;
    }
    Ok(Stream {
        records,
        frames,
        end: place + at,
    })
}

// Whether the gate that stands so far behind the view's begin is open.
fn is_gate_open<D: Disk>(device: &mut D, view: &View, at: u64) -> Result<bool, Fault>
    requires size { size (D.history device.old) ≡ LOG_FRONT_BYTES + view.now.stream_bytes }
    requires inside { at < view.now.stream_bytes }
    ensures gate { IsTrue (D.is_honest device.old) → IfOk result (GateAt (view_of view.now (D.history device.old)) at) }
    ensures only_device { IfErr result (λ fault. fault ≡ Fault.Device) }
    ensures same { IsTrue (D.is_honest device.old) → D.history device.new ≡ D.history device.old }
    ensures honest { D.is_honest device.new ≡ D.is_honest device.old }
    ensures size { size (D.history device.new) ≡ size (D.history device.old) }
    ensures cause { HasCause result (D.faults device.old) (D.faults device.new) }
{
    let mut gate = [0];
    view.read(device, at, &mut gate)?;
    Ok(is_open(gate[0]))
}

// Reads the head behind the gate that stands so far behind the view's begin; `None` if it lies past the end.
fn read_head<D: Disk>(device: &mut D, view: &View, at: u64) -> Result<Option<Head>, Fault>
    requires short { at < MAX_LOG_BYTES }
    requires size { size (D.history device.old) ≡ LOG_FRONT_BYTES + view.now.stream_bytes }
    ensures inside { IfOk result (λ head. IsSome head → at + FRAME_SHARE ≤ view.now.stream_bytes) }
    ensures head { IsTrue (D.is_honest device.old) → IfOk result (λ found. IfSome found (HeadAt (view_of view.now (D.history device.old)) at)) }
    ensures none { result ≡ Ok None → view.now.stream_bytes < at + FRAME_SHARE }
    ensures only_device { IfErr result (λ fault. fault ≡ Fault.Device) }
    ensures same { IsTrue (D.is_honest device.old) → D.history device.new ≡ D.history device.old }
    ensures honest { D.is_honest device.new ≡ D.is_honest device.old }
    ensures size { size (D.history device.new) ≡ size (D.history device.old) }
    ensures cause { HasCause result (D.faults device.old) (D.faults device.new) }
{
    let begin = at + 1;
    if begin + HEAD_BYTES as u64 > view.stream_bytes {
        return Ok(None);
    }
    let mut bytes = [0; HEAD_BYTES];
    view.read(device, begin, &mut bytes)?;
    Ok(Some(head_of(&bytes)))
}

fn head_of(bytes: &[u8]) -> Head
    requires { length bytes.now ≡ 12 }
    ensures { frame_head result.len result.first ≡ bytes.now }
{
    let (len, first) = bytes.split_at(4);
    Head {
        len: LittleEndian::read_u32(len),
        first: LittleEndian::read_u64(first),
    }
}

// Whether a head is that of a frame whose first record has this number, where so many bytes are left behind the head.
fn fits(head: Head, number: u64, left: u64) -> bool
    ensures { IsTrue result ↔ ((head.first ≡ number) × (1 ≤ head.len) × (head.len ≤ MAX_FRAME_BYTES) × (head.len < left)) }
{
    head.first == number
        && head.len >= 1
        && head.len as usize <= MAX_FRAME_BYTES
        && u64::from(head.len) < left
}

// Reads the bytes of the records of the frame whose gate stands so far behind the view's begin. None where there is no frame whose first record has
// this number.
fn read_body<D: Disk>(
    alloc: Global,
    device: &mut D,
    view: &View,
    at: u64,
    number: u64,
) -> Result<Option<Vec<u8>>, Fault>
    requires short { at < MAX_LOG_BYTES }
    requires size { size (D.history device.old) ≡ LOG_FRONT_BYTES + view.now.stream_bytes }
    ensures inside { IfOk result (λ found. IfSome found (λ body.
        (1 ≤ length body.items) × (length body.items ≤ MAX_FRAME_BYTES) × (at + FRAME_SHARE + length body.items < view.now.stream_bytes))) }
    ensures body { IsTrue (D.is_honest device.old) → IfOk result (λ found. IfSome found (λ body.
        BodyAt (view_of view.now (D.history device.old)) at number body.items)) }
    ensures none { IsTrue (D.is_honest device.old) → result ≡ Ok None
        → HasNoFrame (view_of view.now (D.history device.old)) at number }
    ensures refused { IfErr result (λ fault. (fault ≡ Fault.Device) ⊎ (fault ≡ Fault.Memory)) }
    ensures same { IsTrue (D.is_honest device.old) → D.history device.new ≡ D.history device.old }
    ensures honest { D.is_honest device.new ≡ D.is_honest device.old }
    ensures size { size (D.history device.new) ≡ size (D.history device.old) }
    ensures cause { HasCause result (D.faults device.old) (D.faults device.new) }
{
    let Some(head) = read_head(device, view, at)? else {
        return Ok(None);
    };
    let begin = at + 1 + HEAD_BYTES as u64;
    if !fits(head, number, view.stream_bytes - begin) {
        return Ok(None);
    }
    let body = read_bytes(alloc, device, view, begin, head.len as usize)?;
    Ok(Some(body))
}

// Reads so many bytes, the first of them so far behind the view's begin.
fn read_bytes<D: Disk>(
    alloc: Global,
    device: &mut D,
    view: &View,
    at: u64,
    len: usize,
) -> Result<Vec<u8>, Fault>
    requires size { size (D.history device.old) ≡ LOG_FRONT_BYTES + view.now.stream_bytes }
    requires inside { at + len ≤ view.now.stream_bytes }
    ensures len { IfOk result (λ v. length v.items ≡ len) }
    ensures read { IsTrue (D.is_honest device.old) → IfOk result (λ v. v.items ≡ take len (drop at (view_of view.now (D.history device.old)))) }
    ensures refused { IfErr result (λ fault. (fault ≡ Fault.Device) ⊎ (fault ≡ Fault.Memory)) }
    ensures same { IsTrue (D.is_honest device.old) → D.history device.new ≡ D.history device.old }
    ensures honest { D.is_honest device.new ≡ D.is_honest device.old }
    ensures size { size (D.history device.new) ≡ size (D.history device.old) }
    ensures cause { HasCause result (D.faults device.old) (D.faults device.new) }
{
    let mut bytes = Vec::from_elem(alloc, 0, len)?;
    view.read(device, at, &mut bytes)?;
    Ok(bytes)
}

// Reads the frame whose gate stands so far behind the view's begin: its records, and how many bytes they have. None where there is no frame whose first
// record has this number.
fn read_frame<D: Disk>(
    alloc: Global,
    device: &mut D,
    view: &View,
    at: u64,
    number: u64,
) -> Result<Option<(Vec<LogRecord>, usize)>, Fault>
    requires short { at < MAX_LOG_BYTES }
    requires few { number < 2 ^ 47 }
    requires size { size (D.history device.old) ≡ LOG_FRONT_BYTES + view.now.stream_bytes }
    ensures group { IfOk result (λ found. IfSome found (λ x. IsGroup number x.0.items × (x.1 ≡ length (texts x.0.items)))) }
    ensures inside { IfOk result (λ found. IfSome found (λ x. at + FRAME_SHARE + x.1 < view.now.stream_bytes)) }
    ensures frame { IsTrue (D.is_honest device.old) → IfOk result (λ found. IfSome found (λ x.
        IsFrameAt (view_of view.now (D.history device.old)) at number x.0.items)) }
    ensures none { IsTrue (D.is_honest device.old) → result ≡ Ok None
        → HasNoFrame (view_of view.now (D.history device.old)) at number }
    ensures refused { IfErr result (λ fault. (fault ≡ Fault.Device) ⊎ (fault ≡ Fault.Memory)) }
    ensures same { IsTrue (D.is_honest device.old) → D.history device.new ≡ D.history device.old }
    ensures honest { D.is_honest device.new ≡ D.is_honest device.old }
    ensures size { size (D.history device.new) ≡ size (D.history device.old) }
    ensures cause { HasCause result (D.faults device.old) (D.faults device.new) }
{
    let Some(body) = read_body(alloc, device, view, at, number)? else {
        return Ok(None);
    };
    match read_group(alloc, number, &body) {
        Ok(records) => Ok(Some((records, body.len()))),
        Err(ReadError::NoText) => Ok(None),
        Err(ReadError::Memory) => Err(Fault::Memory),
    }
}

// The records that the bytes are the texts of, all of the bytes; the first has this number.
fn read_group(alloc: Global, number: u64, bytes: &[u8]) -> Result<Vec<LogRecord>, ReadError>
    requires { number + length bytes.now < 2 ^ 63 }
    ensures found { IfOk result (λ v. AreNumbered number v.items × (bytes.now ≡ texts v.items)) }
    ensures only { (rs : List LogRecord) → AreNumbered number rs → bytes.now ≡ texts rs → Reads result rs }
{
    let mut records = Vec::new(alloc);
    let mut rest = bytes;
    let mut next = number;
    while !rest.is_empty() {
        let (logged, after) = next_record(alloc, rest)?;
        if !names_earlier(&logged, next) {
            return Err(ReadError::NoText);
        }
        rest = after;
        next += 1;
        records.push(logged)?;
    }
    Ok(records)
}

// Whether the record before it in its transaction has a number below its own.
fn names_earlier(logged: &LogRecord, number: u64) -> bool
    ensures { IsTrue result ↔ (logged.now.previous < number) }
{
    logged.previous.0 < number
}

// The record whose text the bytes begin with, and the bytes behind it.
fn next_record(alloc: Global, bytes: &[u8]) -> Result<(LogRecord, &[u8]), ReadError>
    ensures found { IfOk result (λ x. Fits x.0 × (bytes.now ≡ logrec.text x.0 ++ x.1.now)) }
    ensures only { (r : LogRecord) (rest : List ℕ) → Fits r → bytes.now ≡ logrec.text r ++ rest → ReadsOne (λ x. x.0) (λ x. x.1.now) result r rest }
{
    match decode(alloc, bytes)? {
        Some((logged, len)) => Ok((logged, &bytes[len..])),
        None => Err(ReadError::NoText),
    }
}
