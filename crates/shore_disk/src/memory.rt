//! A device in memory. It keeps the bytes at the last sync beside those now, so that a crash may leave all that the model allows.
ghost use Rattle.std.specs.Prelude.{◌≡◌, ◌+◌, ◌<◌, ◌≤◌, ℕ, [], ◌∷◌, ◌++◌, All, true, length, replicate, IfOk, OnOk, OnErr};
ghost use Rattle.shore_disk.specs.Device.{overwritten, seen, seen_after, may_leave, size};
ghost use Rattle.std.specs.List.{sum_by};
ghost use Rattle.shore_disk.specs.declared.memory.Pick.TheVariants.{Old, Noise, Mixed};
ghost use Rattle.shore_disk.specs.Memory.{copied, end_of, history_in, is_bit_set, laid, mixed, picked_after, picked_from, place_len, unsynced_in, with_noise};

use crate::{Disk, DiskFault};
use http_server::Log as GhostLog;
use std::alloc::{AllocError, Global};

// The room that a device has at first for the bytes of writes which no sync has covered: more than a frame of the log, and as much as the longest batch of pages takes twice.
const KEPT_AT_FIRST: usize = 1 << 20;

// Where bytes were written.
#[derive(Clone, Copy)]
struct Place {
    // The offset of the first byte.
    at: usize,
    // How many bytes.
    len: usize,
}

/// What a crash makes of the writes since the last sync.
#[derive(Clone, Copy, Debug, PartialEq)]
pub enum Pick {
    /// They are lost.
    Old,
    /// They stand.
    New,
    /// Their ranges hold 0x5A.
    Noise,
    /// The write number i of them, from 0 in the order made, stands where the bit i mod 64 is set, and is lost otherwise.
    Mixed(u64),
}

/// A device in memory. An allocation that fails inside it is a failure of the device.
#[derive(Drop)]
pub struct MemDisk {
    /// The bytes at the last sync.
    stable: Vec<u8>,
    /// The bytes as a read gives them.
    bytes: Vec<u8>,
    /// Where they were written since that sync, the oldest first.
    unsynced: Vec<Place>,
    /// The bytes of those writes, one write behind another.
    written: Vec<u8>,
    // How many calls have failed, since an allocation did.
    failures: u64,
    // The bytes at first, and then each call with the bytes that it left. It takes no memory: only clauses read it.
    past: GhostLog<Option<Place>, Vec<u8>>,
    ghost begun: { 0 < length past.items },
    ghost seen: { bytes.items ≡ seen (history_in past.items) },
    ghost lost: { stable.items ≡ picked_after Old (history_in past.items).first (history_in past.items).calls },
    ghost noise: { with_noise stable.items unsynced.items ≡ picked_after Noise (history_in past.items).first (history_in past.items).calls },
    ghost mixed: { (bits : ℕ) → mixed bits 0 stable.items written.items unsynced.items ≡ picked_after (Mixed bits) (history_in past.items).first (history_in past.items).calls },
    ghost count: { length unsynced.items ≡ unsynced_in (history_in past.items).calls },
    ghost kept: { sum_by place_len unsynced.items ≡ length written.items },
    // Stable bytes and those of now differ in the places alone.
    ghost differ: { laid bytes.items stable.items unsynced.items ≡ bytes.items },
    ghost as_long: { length bytes.items ≡ size (history_in past.items) },
    ghost room: { length stable.items ≡ length bytes.items },
    ghost within: { All (λ p. end_of p ≤ length bytes.items) unsynced.items },
}

impl MemDisk {
    ghost use Rattle.shore_disk.specs.MemDisk.{history_of, failures_of};

    /// A device with these bytes, all of them stable.
    pub fn new(alloc: Global, bytes: Vec<u8>) -> Result<MemDisk, AllocError>
        ensures history { IfOk result (λ d. history_of d ≡ record { first = bytes.items; calls = [] }) }
        ensures failures { IfOk result (λ d. failures_of d ≡ 0) }
    {
        let stable = bytes.to_vec(alloc)?;
        let written = Vec::with_capacity(alloc, bytes.len().min(KEPT_AT_FIRST))?;
        let past = GhostLog::new().and(&None, &bytes);
        Ok(MemDisk {
            stable,
            bytes,
            unsynced: Vec::new(alloc),
            written,
            failures: 0,
            past,
        })
    }

    /// The bytes as a read gives them.
    pub fn bytes(&self) -> &[u8]
        ensures { result.now ≡ seen_after (history_of self.now).first (history_of self.now).calls }
    {
        &self.bytes
    }

    /// A loss of power. The image that it leaves is then stable, and the calls begin anew.
    pub fn crash(&mut self, pick: Pick)
        ensures picked { history_of self.new ≡ record { first = picked_after pick (history_of self.old).first (history_of self.old).calls; calls = [] } }
        ensures left { may_leave (history_of self.old) (history_of self.new).first }
        ensures size { size (history_of self.new) ≡ size (history_of self.old) }
        ensures failures { failures_of self.new ≡ failures_of self.old }
    {
        pick_image(
            &mut self.stable,
            &self.bytes,
            &self.written,
            &self.unsynced,
            pick,
        );
        self.bytes.copy_from_slice(&self.stable);
        self.unsynced.clear();
        self.written.clear();
        self.past = GhostLog::new().and(&None, &self.bytes);
    }
}

impl Disk for MemDisk {
    ghost use Rattle.std.proofs.Common.{ap, sym, ◌∙◌};
    ghost use Rattle.shore_disk.specs.MemDisk.{history_of, failures_of};

    ghost is_honest = { λ _. true };

    ghost history = { history_of };

    ghost faults = { failures_of };

    fn len(&self) -> u64 {
        self.bytes.len() as u64
    }

    fn failures(&self) -> u64 {
        self.failures
    }

    fn read_at(&mut self, at: u64, out: &mut [u8]) -> Result<(), DiskFault> {
        let at = at as usize;
        out.copy_from_slice(&self.bytes[at..at + out.len()]);
        Ok(())
    }

    fn write_at(&mut self, at: u64, bytes: &[u8]) -> Result<(), DiskFault> {
        let at = at as usize;
        let place = Place {
            at,
            len: bytes.len(),
        };
        if keep(&mut self.unsynced, &mut self.written, &place, bytes).is_err() {
            self.failures = self.failures.saturating_add(1);
            return Err(DiskFault);
        }
        overwrite(&mut self.bytes, at, bytes);
        self.past = self.past.and(&Some(place), &self.bytes);
        Ok(())
    }

    fn sync(&mut self) -> Result<(), DiskFault> {
        pick_image(
            &mut self.stable,
            &self.bytes,
            &self.written,
            &self.unsynced,
            Pick::New,
        );
        self.unsynced.clear();
        self.written.clear();
        self.past = self.past.and(&None, &self.bytes);
        Ok(())
    }

    ghost keeps_length = { λ d _. ap length (sym d.seen) ∙ d.as_long };
}

// Keeps a write until the next sync. Nothing is changed if an allocation fails.
fn keep(
    unsynced: &mut Vec<Place>,
    written: &mut Vec<u8>,
    place: &Place,
    bytes: &[u8],
) -> Result<(), AllocError>
    ensures place { OnOk result (unsynced.new.items ≡ unsynced.old.items ++ place.now ∷ []) }
    ensures bytes { OnOk result (written.new.items ≡ written.old.items ++ bytes.now) }
    ensures no_place { OnErr result (unsynced.new.items ≡ unsynced.old.items) }
    ensures no_bytes { OnErr result (written.new.items ≡ written.old.items) }
{
    unsynced.reserve(1)?;
    written.extend_from_slice(bytes)?;
    unsynced.push_reserved(*place);
    Ok(())
}

fn overwrite(image: &mut Vec<u8>, at: usize, bytes: &[u8])
    requires { at + length bytes.now ≤ length image.old.items }
    ensures { image.new.items ≡ overwritten image.old.items at bytes.now }
{
    image[at..at + bytes.len()].copy_from_slice(bytes);
}

// Copies the bytes of some places.
fn lay(from: &[u8], image: &mut [u8], places: &[Place])
    requires room { length image.old ≡ length from.now }
    requires within { All (λ p. end_of p ≤ length from.now) places.now }
    ensures { image.new ≡ laid from.now image.old places.now }
{
    for place in places {
        copy_place(from, image, place);
    }
}

fn copy_place(from: &[u8], image: &mut [u8], place: &Place)
    requires room { length image.old ≡ length from.now }
    requires within { end_of place.now ≤ length from.now }
    ensures laid { image.new ≡ copied from.now image.old place.now }
    ensures room { length image.new ≡ length image.old }
{
    let end = place.at + place.len;
    image[place.at..end].copy_from_slice(&from[place.at..end]);
}

// Fills some places with noise.
fn spoil(image: &mut [u8], places: &[Place])
    requires { All (λ p. end_of p ≤ length image.old) places.now }
    ensures { image.new ≡ with_noise image.old places.now }
{
    for place in places {
        spoil_place(image, place);
    }
}

fn spoil_place(image: &mut [u8], place: &Place)
    requires { end_of place.now ≤ length image.old }
    ensures spoilt { image.new ≡ overwritten image.old place.now.at (replicate place.now.len 90) }
    ensures room { length image.new ≡ length image.old }
{
    image[place.at..place.at + place.len].fill(0x5A);
}

// Lays the bytes of those writes whose bits are set, which lie one write behind another.
fn mix(bits: u64, image: &mut [u8], written: &[u8], places: &[Place])
    requires within { All (λ p. end_of p ≤ length image.old) places.now }
    requires kept { sum_by place_len places.now ≡ length written.now }
    ensures { image.new ≡ mixed bits 0 image.old written.now places.now }
{
    let mut from = 0;
    for (index, place) in places.iter().enumerate() {
        let end = from + place.len;
        if is_set(bits, index) {
            lay_part(image, place.at, &written[from..end]);
        }
        from = end;
    }
}

fn lay_part(image: &mut [u8], at: usize, bytes: &[u8])
    requires { at + length bytes.now ≤ length image.old }
    ensures { image.new ≡ overwritten image.old at bytes.now }
{
    image[at..at + bytes.len()].copy_from_slice(bytes);
}

// Whether the bit of a write is set.
fn is_set(bits: u64, index: usize) -> bool
    ensures { result ≡ is_bit_set bits index }
{
    (bits >> (index % 64)) % 2 == 1
}

// Makes the stable bytes the image that a crash picks. With all writes standing that is what a sync leaves.
fn pick_image(
    stable: &mut Vec<u8>,
    bytes: &Vec<u8>,
    written: &Vec<u8>,
    unsynced: &Vec<Place>,
    pick: Pick,
)
    requires kept { sum_by place_len unsynced.now.items ≡ length written.now.items }
    requires room { length stable.old.items ≡ length bytes.now.items }
    requires within { All (λ p. end_of p ≤ length bytes.now.items) unsynced.now.items }
    ensures picked { stable.new.items ≡ picked_from pick stable.old.items bytes.now.items written.now.items unsynced.now.items }
    ensures room { length stable.new.items ≡ length stable.old.items }
{
    match pick {
        Pick::Old => {}
        Pick::New => lay(bytes, stable, unsynced),
        Pick::Noise => spoil(stable, unsynced),
        Pick::Mixed(bits) => mix(bits, stable, written, unsynced),
    }
}
