//! The log buffer: the records that wait on their way from the core to the log device.
ghost use Rattle.std.specs.Prelude.{◌≡◌, ◌⊎◌, ◌↔◌, ◌+◌, ◌<◌, ◌≤◌, ◌^◌, [], ◌∷◌, ◌++◌, ℕ, Bool, List, All, IsTrue, false, true, length, max, IfOk, IfErr, IsOk, OnOk, OnErr, vec_capacity, vec_len};
ghost use Rattle.shore_types.specs.declared.faults.Fault.TheVariants as Fault;
ghost use Rattle.shore_model.specs.declared.log_records.LogRecord.{LogRecord};
ghost use Rattle.shore_logrec.specs.Text.{Fits, text, texts};
ghost use Rattle.shore_frames.specs.LoggedRecords.{are_numbered};
ghost use Rattle.shore_log.specs.Listed.{listed};
ghost use Rattle.shore_log.specs.Told.{Covers, HasRoom, KeepsAside, SaysAlike, aside_for, taken_from};

use crate::texts::{decode_all, move_behind, take_entries};
use http_server::Log as GhostLog;
use shore_frames::FrameAt;
use shore_logrec::{LogRecord, encode, encoded_len};
use shore_types::{Fault, Lsn};
use std::alloc::{AllocError, Global};
use std::mem;

/// Takes the records of the core in their order and gives each its number.
pub trait Tail {
    ghost use Rattle.shore_log.specs.declared.tail.Told.{Told};

    /// The number of the first record that it has.
    ghost first: { Self → ℕ };

    /// The records that it has, in the order of their numbers.
    ghost records: { Self → List LogRecord };

    /// What it was told of the log device, and what it keeps aside.
    ghost told: { Self → Told };

    /// Whether it keeps room aside.
    ghost keeps: { Bool };

    /// Adds a record and answers its number. If it is refused none is added: `Memory` if an allocation failed.
    fn push(&mut self, logged: &LogRecord) -> Result<Lsn, Fault>
        requires text { Fits logged.now }
        requires previous { logged.now.previous < first self.old + length (records self.old) }
        requires numbers { first self.old + length (records self.old) < 2 ^ 62 }
        ensures number { IfOk result (λ n. n ≡ first self.old + length (records self.old)) }
        ensures added { OnOk result (records self.new ≡ records self.old ++ logged.now ∷ []) }
        ensures refused { IfErr result (λ fault. fault ≡ Fault.Memory) }
        ensures none_added { OnErr result (records self.new ≡ records self.old) }
        ensures first { first self.new ≡ first self.old }
        ensures told { told self.new ≡ told self.old };

    /// Keeps room aside for so many records with so many bytes of texts in all, in place of what was kept: no other record takes it. `Memory` if an allocation
    /// failed: what was kept is kept. None is made for what is kept already, nor by a tail that keeps none.
    fn keep_aside(&mut self, count: usize, bytes: usize) -> Result<(), Fault>
        requires few { (count < 2 ^ 30) × (bytes < 2 ^ 30) }
        ensures idle { KeepsAside (told self.old) count bytes → IsOk result }
        ensures keeps_none { keeps ≡ false → IsOk result }
        ensures kept { OnOk result (IsTrue keeps → (told self.new).aside ≡ aside_for count bytes) }
        ensures none { keeps ≡ false → (told self.new).aside ≡ (told self.old).aside }
        ensures refused { IfErr result (λ fault. fault ≡ Fault.Memory) }
        ensures none_kept { OnErr result ((told self.new).aside ≡ (told self.old).aside) }
        ensures told { SaysAlike (told self.new) (told self.old) }
        ensures first { first self.new ≡ first self.old }
        ensures records { records self.new ≡ records self.old };

    /// Adds a record as `push` does, into room that is kept aside: if there is so much of it, it is not refused. If it is refused, what was kept is kept.
    fn push_kept(&mut self, logged: &LogRecord) -> Result<Lsn, Fault>
        requires text { Fits logged.now }
        requires previous { logged.now.previous < first self.old + length (records self.old) }
        requires numbers { first self.old + length (records self.old) < 2 ^ 62 }
        ensures number { IfOk result (λ n. n ≡ first self.old + length (records self.old)) }
        ensures added { OnOk result (records self.new ≡ records self.old ++ logged.now ∷ []) }
        ensures idle { KeepsAside (told self.old) 1 (length (text logged.now)) → IsOk result }
        ensures refused { IfErr result (λ fault. fault ≡ Fault.Memory) }
        ensures none_added { OnErr result (records self.new ≡ records self.old) }
        ensures first { first self.new ≡ first self.old }
        ensures told { OnOk result (told self.new ≡ taken_from (told self.old) 1 (length (text logged.now))) }
        ensures none_taken { OnErr result (told self.new ≡ told self.old) };

    /// The number that the next record will have.
    fn next(&self) -> Lsn
        requires { first self.now + length (records self.now) < 2 ^ 63 }
        ensures { result ≡ first self.now + length (records self.now) };
}

// A log device of which nothing is known: it takes what it needs itself.
const NOTHING_TOLD: Told = Told {
    entries: Known {
        held: 0,
        room: usize::MAX,
    },
    texts: Known {
        held: 0,
        room: usize::MAX,
    },
    aside: NOTHING_ASIDE,
};

const NOTHING_ASIDE: Aside = Aside {
    records: 0,
    bytes: 0,
};

/// How much the log device holds of something at most, and for how much it has room at least.
#[derive(Clone, Copy)]
pub struct Known {
    /// How much it holds.
    pub held: usize,
    /// For how much there is room.
    pub room: usize,
}

impl Known {
    // Whether there is room for so much more: at the log device, or this that is brought.
    fn has_room(self, more: usize, brought: usize) -> bool
        ensures { IsTrue result ↔ HasRoom self more brought }
    {
        let room = self.room.max(brought);
        self.held <= room && more <= room - self.held
    }

    // Of what holds no more than this.
    fn no_more_than(self, most: usize) -> Known
        ensures held { (result.held ≤ self.held) × (result.held ≤ most) }
        ensures least { (held : ℕ) → held ≤ self.held → held ≤ most → held ≤ result.held }
        ensures room { result.room ≡ self.room }
    {
        let held = if self.held <= most { self.held } else { most };
        Known {
            held,
            room: self.room,
        }
    }
}

/// Room for records to come, which no other record takes.
#[derive(Clone, Copy)]
pub struct Aside {
    /// How many records.
    pub records: usize,
    /// How many bytes their texts have in all.
    pub bytes: usize,
}

/// What a log buffer was told of the log device, and what it keeps aside. No push changes it but one of what was kept.
#[derive(Clone, Copy)]
pub struct Told {
    /// The entries of the index, with those to come for what waits there.
    pub entries: Known,
    /// The bytes of the texts that wait there.
    pub texts: Known,
    /// What is kept aside.
    pub aside: Aside,
}

/// A log buffer for one caller: the texts of the records wait in memory until the log device takes them. What the log device needs to take them in, and to force
/// them, is taken as they come.
#[derive(Drop)]
pub struct PlainTail {
    // The number of the first record that waits, or that the next push will have.
    first: u64,
    // How many records wait.
    count: u64,
    // Their texts, one behind another.
    bytes: Vec<u8>,
    // Which they are. It takes no memory: only proofs read it.
    waiting: GhostLog<LogRecord, ()>,
    // What it was told of the log device; and an index with no entry, with the room that is brought. That of texts is brought with theirs.
    told: Told,
    index: Vec<FrameAt>,
    // Room for the texts of what is kept aside, if the log device's is short: it is for the texts to come once both have changed places.
    spare: Vec<u8>,
    ghost numbered: { IsTrue (are_numbered first (listed waiting.items)) },
    ghost counted: { count ≡ length (listed waiting.items) },
    ghost few: { first + count ≤ 2 ^ 62 },
    ghost spelled: { bytes.items ≡ texts (listed waiting.items) },
    // There is room for all that waits, and for what is kept aside: at the log device, or it is brought.
    ghost no_entry: { vec_len index ≡ 0 },
    ghost index_room: { HasRoom told.entries (count + told.aside.records) (vec_capacity index) },
    ghost texts_room: { HasRoom told.texts (vec_len bytes + told.aside.bytes) (vec_capacity bytes) },
    ghost texts_short: { told.texts.held < 2 ^ 63 },
    // There is room here for the texts of what is kept aside, and will be once these texts were handed over.
    ghost aside_short: { (told.aside.records < 2 ^ 30) × (told.aside.bytes < 2 ^ 30) },
    ghost aside_room: { vec_len bytes + told.aside.bytes ≤ vec_capacity bytes },
    ghost spare_room: { (vec_len spare ≡ 0) × (told.aside.bytes ≤ max told.texts.room (vec_capacity spare)) },
}

impl PlainTail {
    ghost use Rattle.shore_log.specs.PlainTails.{first_of, told_in, waiting_in};

    /// A log buffer with no record, whose next has this number.
    pub fn new(alloc: Global, next: Lsn) -> PlainTail
        requires { next ≤ 2 ^ 62 }
        ensures first { first_of result ≡ next }
        ensures waiting { waiting_in result ≡ [] }
        ensures aside { (told_in result).aside ≡ aside_for 0 0 }
    {
        PlainTail {
            first: next.0,
            count: 0,
            bytes: Vec::new(alloc),
            waiting: GhostLog::new(),
            told: NOTHING_TOLD,
            index: Vec::new(alloc),
            spare: Vec::new(alloc),
        }
    }

    /// Moves the texts of the records that wait to the end of others, and answers how many they are. If an allocation fails they stay.
    pub fn hand_over(&mut self, out: &mut Vec<u8>) -> Result<usize, AllocError>
        ensures ok { OnOk result (out.new.items ≡ out.old.items ++ texts (waiting_in self.old)) }
        ensures count { IfOk result (λ count. count ≡ length (waiting_in self.old)) }
        ensures emptied { OnOk result (waiting_in self.new ≡ []) }
        ensures next { first_of self.new + length (waiting_in self.new) ≡ first_of self.old + length (waiting_in self.old) }
        ensures idle { Covers (told_in self.old).texts (vec_len out.old) (vec_capacity out.old) → IsOk result }
        ensures knows { OnOk result (Covers (told_in self.new).texts (vec_len out.new) (vec_capacity out.new)) }
        ensures entries { OnOk result (((told_in self.new).entries.held ≡ (told_in self.old).entries.held + length (waiting_in self.old)) × ((told_in self.new).entries.room ≡ (told_in self.old).entries.room)) }
        ensures aside { Covers (told_in self.old).texts (vec_len out.old) (vec_capacity out.old) → (told_in self.new).aside ≡ (told_in self.old).aside }
        ensures err { OnErr result (out.new.items ≡ out.old.items) }
        ensures stay { OnErr result (waiting_in self.new ≡ waiting_in self.old) }
    {
        move_behind(out, &mut self.bytes)?;
        let count = self.count;
        let Known { held, room } = self.told.entries;
        let aside = self.told.aside;
        take_spare(&mut self.bytes, &mut self.spare, aside.bytes);
        let texts = Known {
            held: out.len(),
            room: out.capacity(),
        };
        self.told = Told {
            entries: Known {
                held: held + count as usize,
                room,
            },
            texts,
            aside: still_aside(aside, texts, self.bytes.capacity(), self.spare.capacity()),
        };
        self.first += count;
        self.count = 0;
        self.waiting = GhostLog::new();
        Ok(count as usize)
    }

    /// Learns what the log device holds and has room for, while nothing waits. Nothing is kept aside then.
    pub(crate) fn learn(&mut self, entries: Known, texts: Known)
        requires empty { waiting_in self.old ≡ [] }
        requires room { (entries.held ≤ entries.room) × (texts.held ≤ texts.room) × (texts.held < 2 ^ 63) }
        ensures told { ((told_in self.new).entries ≡ entries) × ((told_in self.new).texts ≡ texts) × ((told_in self.new).aside ≡ aside_for 0 0) }
        ensures same { (first_of self.new ≡ first_of self.old) × (waiting_in self.new ≡ waiting_in self.old) }
    {
        self.told = Told {
            entries,
            texts,
            aside: NOTHING_ASIDE,
        };
    }

    /// Learns that the log device holds no more than this, after a force.
    pub(crate) fn hold_no_more(&mut self, entries: usize, texts: usize)
        ensures entries { (held room : ℕ) → held ≤ entries → Covers (told_in self.old).entries held room → Covers (told_in self.new).entries held room }
        ensures texts { (held room : ℕ) → held ≤ texts → Covers (told_in self.old).texts held room → Covers (told_in self.new).texts held room }
        ensures least { ((told_in self.new).entries.held ≤ entries) × ((told_in self.new).texts.held ≤ texts) }
        ensures aside { (told_in self.new).aside ≡ (told_in self.old).aside }
        ensures same { (first_of self.new ≡ first_of self.old) × (waiting_in self.new ≡ waiting_in self.old) }
    {
        self.told = Told {
            entries: self.told.entries.no_more_than(entries),
            texts: self.told.texts.no_more_than(texts),
            aside: self.told.aside,
        };
    }

    /// Sees that an index has room for what waits, beside so many records that wait at the log device: by the room that was brought, if it has none.
    pub(crate) fn bring_index(
        &mut self,
        frames: &mut Vec<FrameAt>,
        waiting: usize,
    ) -> Result<(), AllocError>
        requires { waiting ≤ 2 ^ 63 }
        ensures items { frames.new.items ≡ frames.old.items }
        ensures len { vec_len frames.new ≡ vec_len frames.old }
        ensures room { OnOk result (vec_len frames.new + (waiting + length (waiting_in self.old)) ≤ vec_capacity frames.new) }
        ensures kept { vec_capacity frames.old ≤ vec_capacity frames.new }
        ensures idle { Covers (told_in self.old).entries (vec_len frames.old + waiting) (vec_capacity frames.old) → IsOk result }
        ensures knows { OnOk result (Covers (told_in self.new).entries (vec_len frames.new + waiting) (vec_capacity frames.new)) }
        ensures same { (self.new.first ≡ self.old.first) × (self.new.count ≡ self.old.count) × (self.new.waiting ≡ self.old.waiting) }
        ensures texts { ((told_in self.new).texts ≡ (told_in self.old).texts) × (self.new.bytes ≡ self.old.bytes) × (self.new.spare ≡ self.old.spare) }
        ensures aside { (told_in self.new).aside ≡ (told_in self.old).aside }
    {
        let count = self.count as usize;
        let more = waiting + count + self.told.aside.records;
        take_entries(frames, &mut self.index, more)?;
        self.told = Told {
            entries: Known {
                held: frames.len() + waiting,
                room: frames.capacity(),
            },
            texts: self.told.texts,
            aside: self.told.aside,
        };
        Ok(())
    }

    // Takes what the log device will need for so many records more with texts of so many bytes, and the room for these texts here.
    fn take_room(&mut self, records: usize, len: usize) -> Result<(), AllocError>
        requires { (records < 2 ^ 40) × (len < 2 ^ 40) }
        ensures entries { OnOk result (HasRoom (told_in self.new).entries (self.new.count + records) (vec_capacity self.new.index)) }
        ensures texts { OnOk result (HasRoom (told_in self.new).texts (vec_len self.new.bytes + len) (vec_capacity self.new.bytes)) }
        ensures here { OnOk result (vec_len self.new.bytes + len ≤ vec_capacity self.new.bytes) }
        ensures idle { HasRoom (told_in self.old).entries (self.old.count + records) (vec_capacity self.old.index)
            → HasRoom (told_in self.old).texts (vec_len self.old.bytes + len) (vec_capacity self.old.bytes) → vec_len self.old.bytes + len ≤ vec_capacity self.old.bytes → IsOk result }
        ensures bytes { self.new.bytes.items ≡ self.old.bytes.items }
        ensures same { (self.new.first ≡ self.old.first) × (self.new.count ≡ self.old.count) × (self.new.waiting ≡ self.old.waiting) }
        ensures told { told_in self.new ≡ told_in self.old }
        ensures spare { self.new.spare ≡ self.old.spare }
    {
        let Told { entries, texts, .. } = self.told;
        let count = self.count as usize + records;
        if !entries.has_room(count, self.index.capacity()) {
            let Some(wanted) = entries.held.checked_add(count) else {
                return Err(AllocError);
            };
            self.index.reserve(wanted)?;
        }
        let longer = self.bytes.len() + len;
        if !texts.has_room(longer, self.bytes.capacity()) {
            self.bytes.reserve(texts.held + len)?;
        }
        self.bytes.reserve(len)
    }

    // One record more; no more than this is kept aside then.
    fn push_one(&mut self, logged: &LogRecord, left: Aside) -> Result<Lsn, Fault>
        requires text { Fits logged.now }
        requires previous { logged.now.previous < first_of self.old + length (waiting_in self.old) }
        requires numbers { first_of self.old + length (waiting_in self.old) < 2 ^ 62 }
        requires left { KeepsAside (told_in self.old) left.records left.bytes }
        ensures number { IfOk result (λ n. n ≡ first_of self.old + length (waiting_in self.old)) }
        ensures added { OnOk result (waiting_in self.new ≡ waiting_in self.old ++ logged.now ∷ []) }
        ensures idle { HasRoom (told_in self.old).entries (self.old.count + (left.records + 1)) (vec_capacity self.old.index)
            → HasRoom (told_in self.old).texts (vec_len self.old.bytes + (left.bytes + length (text logged.now))) (vec_capacity self.old.bytes)
            → vec_len self.old.bytes + (left.bytes + length (text logged.now)) ≤ vec_capacity self.old.bytes → IsOk result }
        ensures refused { IfErr result (λ fault. fault ≡ Fault.Memory) }
        ensures none_added { OnErr result (waiting_in self.new ≡ waiting_in self.old) }
        ensures first { first_of self.new ≡ first_of self.old }
        ensures told { OnOk result (told_in self.new ≡ record (told_in self.old) { aside = left }) }
        ensures none_taken { OnErr result (told_in self.new ≡ told_in self.old) }
    {
        let Aside { records, bytes } = left;
        self.take_room(records + 1, bytes + encoded_len(logged))?;
        encode(logged, &mut self.bytes)?;
        let number = self.first + self.count;
        self.waiting = self.waiting.and(logged, &());
        self.count += 1;
        self.told.aside = left;
        Ok(Lsn(number))
    }

    /// Copies of the records that wait, in the order of their numbers.
    pub fn waiting(&self, alloc: Global) -> Result<Vec<LogRecord>, AllocError>
        ensures { IfOk result (λ records. records.items ≡ waiting_in self.now) }
    {
        decode_all(alloc, &self.bytes)
    }

    // Whether no record waits.
    pub(crate) fn is_empty(&self) -> bool
        ensures { IsTrue result ↔ (waiting_in self.now ≡ []) }
    {
        self.count == 0
    }

    // Which they are.
    pub(crate) fn listed(&self) -> &GhostLog<LogRecord, ()>
        ensures { result.now ≡ self.now.waiting }
    {
        &self.waiting
    }
}

// What is kept aside still once texts were handed over, by so much room here and in spare: all of it, unless the log device has less room than was told.
fn still_aside(aside: Aside, texts: Known, here: usize, spare: usize) -> Aside
    ensures least { (result.records ≤ aside.records) × (result.bytes ≤ aside.bytes) }
    ensures room { (result.bytes ≤ here) × (result.bytes ≤ max texts.room spare) }
    ensures texts { texts.held ≤ texts.room → HasRoom texts result.bytes here }
    ensures all { aside.bytes ≤ here → aside.bytes ≤ max texts.room spare → HasRoom texts aside.bytes here → result ≡ aside }
{
    let bytes = aside.bytes;
    if bytes <= here && bytes <= texts.room.max(spare) && texts.has_room(bytes, here) {
        return aside;
    }
    NOTHING_ASIDE
}

// Takes the spare's room where there is less than this; neither has anything in it.
fn take_spare(bytes: &mut Vec<u8>, spare: &mut Vec<u8>, wanted: usize)
    requires { (bytes.old.items ≡ []) × (vec_len spare.old ≡ 0) }
    ensures empty { (bytes.new.items ≡ []) × (vec_len spare.new ≡ 0) }
    ensures room { ((wanted ≤ vec_capacity bytes.old) × (vec_capacity bytes.new ≡ vec_capacity bytes.old) × (vec_capacity spare.new ≡ vec_capacity spare.old))
        ⊎ ((vec_capacity bytes.old < wanted) × (vec_capacity bytes.new ≡ vec_capacity spare.old) × (vec_capacity spare.new ≡ vec_capacity bytes.old)) }
{
    if bytes.capacity() < wanted {
        mem::swap(bytes, spare);
    }
}

impl Tail for PlainTail {
    ghost use Rattle.shore_log.specs.PlainTails.{first_of, told_in, waiting_in};

    ghost first = { first_of };

    ghost records = { waiting_in };

    ghost told = { told_in };

    ghost keeps = { true };

    fn push(&mut self, logged: &LogRecord) -> Result<Lsn, Fault> {
        self.push_one(logged, self.told.aside)
    }

    fn keep_aside(&mut self, count: usize, bytes: usize) -> Result<(), Fault> {
        self.take_room(count, bytes)?;
        if self.told.texts.room < bytes {
            self.spare.reserve(bytes)?;
        }
        self.told.aside = Aside {
            records: count,
            bytes,
        };
        Ok(())
    }

    fn push_kept(&mut self, logged: &LogRecord) -> Result<Lsn, Fault> {
        let Aside { records, bytes } = self.told.aside;
        let left = Aside {
            records: records.saturating_sub(1),
            bytes: bytes.saturating_sub(encoded_len(logged)),
        };
        self.push_one(logged, left)
    }

    fn next(&self) -> Lsn {
        Lsn(self.first + self.count)
    }
}
