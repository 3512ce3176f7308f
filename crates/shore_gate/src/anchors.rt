//! The two anchors of a log (its master record), from which its reading begins. They are written in turn, so one is always whole.
ghost use Rattle.std.specs.Prelude.{◌≡◌, ◌+◌, ◌≤◌, ◌⊎◌, List, ℕ, length, IsTrue, IfOk, IfErr, MatchResult, Ok, Err};
ghost use Rattle.shore_disk.specs.Device.{size, seen, CountsFault};
ghost use Rattle.shore_disk.specs.Cause.{HasCause};
ghost use Rattle.shore_gate.specs.Anchor.{offset_of, other_of, slot_bytes, damaged, may_count, open_anchor, counted, chosen, anchors_verdict, verdict_of, Counts};

use crate::is_open;
use crate::numbers::{are_zero, u64_at};
use shore_disk::{Disk, DiskFault};
use shore_types::layout::{ANCHOR_A_AT, ANCHOR_B_AT, LAST_OPENED, LONGEST_FRAME};
use shore_types::{Device, Fault, Lsn};

/// The bytes of an anchor, its gate among them.
pub const ANCHOR_BYTES: usize = 40;

/// One of the two anchors.
#[derive(Clone, Copy, PartialEq)]
pub enum Slot {
    A,
    B,
}

impl Slot {
    ghost use Rattle.shore_gate.specs.Anchor.{other_of, offset_of};

    /// The other slot.
    pub fn other(self) -> Slot
        ensures { result ≡ other_of self }
    {
        match self {
            Slot::A => Slot::B,
            Slot::B => Slot::A,
        }
    }

    /// The byte of the log device at which it begins, with its gate.
    pub fn offset(self) -> u64
        ensures { result ≡ offset_of self }
    {
        match self {
            Slot::A => ANCHOR_A_AT,
            Slot::B => ANCHOR_B_AT,
        }
    }
}

/// Where the reading of a log begins.
#[derive(Clone, Copy)]
pub struct Anchor {
    /// It rises by one with each move, and tells which anchor is the newer.
    pub sequence: u64,
    /// The number of the CheckpointBegin that analysis begins with, 0 for none.
    pub checkpoint: Lsn,
    /// The number of the first record of the frame at which the kept log begins.
    pub tail: Lsn,
    /// The offset of that frame in the stream.
    pub tail_place: u64,
}

/// The anchor of a log that counts, and its slot. The next one is written in the other slot.
#[derive(Clone, Copy)]
pub struct Anchors {
    /// The slot of the anchor that counts.
    pub slot: Slot,
    /// What that anchor says.
    pub anchor: Anchor,
}

impl Anchors {
    /// Reads both anchors, and answers the one that counts. An open slot whose bytes 1 to 7 are not zero is `Damaged` at
    /// that slot, A before B; no open slot at all is `Damaged` at A, two of the same sequence at B; and one that breaks
    /// a limit, if it counts, at its own slot. Whether the log holds the checkpoint is left to the one who opens it.
    pub fn read<D: Disk>(disk: &mut D) -> Result<Anchors, Fault>
        requires { 2088 ≤ size (D.history disk.old) }

        // The anchor that counts is answered, and nothing else is taken for one.
        ensures found { IsTrue (D.is_honest disk.old) → IfOk result (λ found. Counts (seen (D.history disk.old)) found.slot found.anchor) }
        ensures only { (slot : Slot) (anchor : Anchor) → IsTrue (D.is_honest disk.old) → Counts (seen (D.history disk.old)) slot anchor
            → MatchResult result (λ found. found ≡ record { slot = slot; anchor = anchor }) (λ fault. fault ≡ Fault.Device) }

        // What is refused goes by the cases of both slots.
        ensures judged { IsTrue (D.is_honest disk.old) → (result ≡ Err Fault.Device) ⊎ (result ≡ verdict_of (seen (D.history disk.old))) }

        ensures same { IsTrue (D.is_honest disk.old) → D.history disk.new ≡ D.history disk.old }
        ensures honest { D.is_honest disk.new ≡ D.is_honest disk.old }
        ensures size { size (D.history disk.new) ≡ size (D.history disk.old) }
        ensures cause { HasCause result (D.faults disk.old) (D.faults disk.new) }
    {
        let a = read_slot(disk, Slot::A)?;
        let b = read_slot(disk, Slot::B)?;
        decode_both(&a, &b)
    }
}

impl Anchor {
    ghost use Rattle.shore_gate.specs.Anchor.{anchor_bytes};

    /// Its encoding, behind the gate of a slot.
    #[tactic(auto, unfolding(crate::specs::Anchor::anchor_bytes))]
    pub fn to_bytes(&self) -> [u8; ANCHOR_BYTES - 1]
        ensures text { result ≡ anchor_bytes self.now }
        ensures len { length result ≡ 39 }
    {
        let mut bytes = [0; ANCHOR_BYTES - 1];
        bytes[7..15].copy_from_slice(&self.sequence.to_le_bytes());
        bytes[15..23].copy_from_slice(&self.checkpoint.0.to_le_bytes());
        bytes[23..31].copy_from_slice(&self.tail.0.to_le_bytes());
        bytes[31..39].copy_from_slice(&self.tail_place.to_le_bytes());
        bytes
    }
}

pub(crate) fn read_slot<D: Disk>(disk: &mut D, slot: Slot) -> Result<[u8; ANCHOR_BYTES], DiskFault>
    requires { 2088 ≤ size (D.history disk.old) }
    ensures bytes { IsTrue (D.is_honest disk.old) → IfOk result (λ bytes. bytes ≡ slot_bytes slot (seen (D.history disk.old))) }
    ensures same { IsTrue (D.is_honest disk.old) → D.history disk.new ≡ D.history disk.old }
    ensures honest { D.is_honest disk.new ≡ D.is_honest disk.old }
    ensures size { size (D.history disk.new) ≡ size (D.history disk.old) }
    ensures cause { CountsFault result (D.faults disk.old) (D.faults disk.new) }
{
    let mut bytes = [0; ANCHOR_BYTES];
    disk.read_at(slot.offset(), &mut bytes)?;
    Ok(bytes)
}

// The anchor that counts, of the bytes of both slots.
#[tactic(auto, unfolding(crate::specs::Anchor::anchors_verdict))]
fn decode_both(a: &[u8], b: &[u8]) -> Result<Anchors, Fault>
    requires a { length a.now ≡ 40 }
    requires b { length b.now ≡ 40 }
    ensures judged { result ≡ anchors_verdict a.now b.now }
    ensures found { (image : List ℕ) → a.now ≡ slot_bytes Slot.A image → b.now ≡ slot_bytes Slot.B image → IfOk result (λ found. Counts image found.slot found.anchor) }
{
    let a = decode(Slot::A, a)?;
    let b = decode(Slot::B, b)?;
    choose(a, b)
}

fn choose(a: Option<Anchor>, b: Option<Anchor>) -> Result<Anchors, Fault>
    ensures { result ≡ chosen a b }
{
    match (a, b) {
        (None, None) => Err(damaged(Slot::A)),
        (Some(a), None) => checked(Slot::A, a),
        (None, Some(b)) => checked(Slot::B, b),
        (Some(a), Some(b)) if a.sequence == b.sequence => Err(damaged(Slot::B)),
        (Some(a), Some(b)) if a.sequence > b.sequence => checked(Slot::A, a),
        (Some(_), Some(b)) => checked(Slot::B, b),
    }
}

fn damaged(slot: Slot) -> Fault
    ensures { result ≡ damaged slot }
{
    Fault::damaged(Device::Log, slot.offset())
}

// The anchor of a slot, none behind a closed gate.
fn decode(slot: Slot, bytes: &[u8]) -> Result<Option<Anchor>, Fault>
    requires { length bytes.now ≡ 40 }
    ensures { result ≡ open_anchor slot bytes.now }
{
    if !is_open(bytes[0]) {
        return Ok(None);
    }
    if !are_zero(&bytes[1..8]) {
        return Err(damaged(slot));
    }
    Ok(Some(Anchor {
        sequence: u64_at(bytes, 8),
        checkpoint: Lsn(u64_at(bytes, 16)),
        tail: Lsn(u64_at(bytes, 24)),
        tail_place: u64_at(bytes, 32),
    }))
}

fn checked(slot: Slot, anchor: Anchor) -> Result<Anchors, Fault>
    ensures { result ≡ counted slot anchor }
{
    if !may_count(&anchor) {
        return Err(damaged(slot));
    }
    Ok(Anchors { slot, anchor })
}

// Whether an anchor that counts is in its limits.
fn may_count(anchor: &Anchor) -> bool
    ensures { result ≡ may_count anchor.now }
{
    let Anchor {
        sequence,
        checkpoint,
        tail,
        tail_place,
    } = *anchor;
    (1..=LAST_OPENED).contains(&tail.0)
        && tail_place <= LONGEST_FRAME * (tail.0 - 1)
        && sequence >= 1
        && sequence - 1 <= checkpoint.0
        && (checkpoint.0 == 0 || checkpoint.0 >= tail.0)
}
