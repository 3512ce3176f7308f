//! The label at the front of a device: which device it is, how long, and how its pair is laid out.
ghost use Rattle.std.specs.Prelude.{◌≡◌, ◌+◌, ◌*◌, ◌≤◌, ◌⊎◌, ◌++◌, ℕ, length, sum, IsTrue, IfOk, IfErr, OnOk, MatchResult, Ok, Err};
ghost use Rattle.std.specs.List.{flat_map};
ghost use Rattle.byteorder.specs.Endian.{little_bytes};
ghost use Rattle.shore_disk.specs.Device.{size, Writes};
ghost use Rattle.shore_disk.specs.Cause.{HasCause};
ghost use Rattle.shore_gate.specs.Checks.{judged, IsFromOutside};
ghost use Rattle.shore_gate.specs.Numbers.{number_at};
ghost use Rattle.shore_gate.specs.Label.{kind_of, label_bytes, label_head, HoldsLabel, IsLabel, kind_checks, field_checks, store_checks, end_checks, may_be_long, is_filled, label_verdict, stores_of, version_in, HasLabel, verdict_of};

use crate::is_open;
use crate::numbers::{are_zero, u16_at, u32_at, u32s_at, u64_at};
use shore_disk::Disk;
use shore_types::layout::{
    LEAST_MAX_LOCKS, LENGTH_AT, MAX_LOG_BYTES, MAX_PAGES, MAX_STORES, MOST_MAX_LOCKS,
};
use shore_types::{Device, Fault, Sequence, Version};
use std::alloc::{AllocError, Global};

/// The bytes of a label, its gate among them.
pub const LABEL_BYTES: usize = 512;

/// A device that is shorter than this has no label.
const LEAST_DEVICE_BYTES: u64 = 4096;

/// Where the pages of the stores begin.
const STORES_AT: usize = 32;

/// What the label of a device says.
#[derive(Drop, PartialEq)]
pub struct Label {
    /// The version of the formats.
    pub version: Version,
    /// The number of the pair that the device belongs to.
    pub pair: u64,
    /// The length of this device in bytes.
    pub length: u64,
    /// The most lock nodes.
    pub max_locks: u32,
    /// The pages of each store.
    pub stores: Sequence<u32>,
}

/// Writes a label behind its gate, which is left as it is: the gate is closed before and opened after it by the one
/// who formats. At `Memory` nothing is written.
pub fn write_label<D: Disk>(
    alloc: Global,
    disk: &mut D,
    device: Device,
    label: &Label,
) -> Result<(), Fault>
    requires fits { 512 ≤ size (D.history disk.old) }
    requires stores { length label.now.stores ≤ 64 }
    ensures written { IsTrue (D.is_honest disk.old) → Writes 1 (label_bytes device label.now) result (D.history disk.old) (D.history disk.new) }
    ensures only_outside { IfErr result IsFromOutside }
    ensures memory { result ≡ Err Fault.Memory → disk.new ≡ disk.old }
    ensures honest { D.is_honest disk.new ≡ D.is_honest disk.old }
    ensures size { size (D.history disk.new) ≡ size (D.history disk.old) }
    ensures cause { HasCause result (D.faults disk.old) (D.faults disk.new) }
{
    let bytes = encode_label(alloc, device, label)?;
    disk.write_at(1, &bytes)?;
    Ok(())
}

/// Reads and checks the label of a device. A device that is too short, a closed gate or the label of the other device
/// is `NotFormatted`, another version is `WrongVersion`; then the first field that breaks a limit is `Damaged` at its
/// byte. A volume whose length is not that of its pages is `Damaged` at the length.
pub fn read_label<D: Disk>(alloc: Global, disk: &mut D, device: Device) -> Result<Label, Fault>
    // The label that is there is answered, and nothing else is taken for one.
    ensures found { IsTrue (D.is_honest disk.old) → IfOk result (HasLabel device (D.history disk.old)) }
    ensures only { (label : Label) → IsTrue (D.is_honest disk.old) → HasLabel device (D.history disk.old) label
        → MatchResult result (λ read. read ≡ label) IsFromOutside }

    ensures limits { IfOk result (IsLabel device (size (D.history disk.old))) }

    // What is refused goes by the checks in their order.
    ensures passed { IsTrue (D.is_honest disk.old) → OnOk result (verdict_of device (D.history disk.old) ≡ Ok tt) }
    ensures refused { IsTrue (D.is_honest disk.old)
        → IfErr result (λ fault. IsFromOutside fault ⊎ (verdict_of device (D.history disk.old) ≡ Err fault)) }

    ensures same { IsTrue (D.is_honest disk.old) → D.history disk.new ≡ D.history disk.old }
    ensures honest { D.is_honest disk.new ≡ D.is_honest disk.old }
    ensures size { size (D.history disk.new) ≡ size (D.history disk.old) }
    ensures cause { HasCause result (D.faults disk.old) (D.faults disk.new) }
{
    let len = disk.len();
    if len < LEAST_DEVICE_BYTES {
        return Err(Fault::NotFormatted);
    }
    let mut bytes = [0; LABEL_BYTES];
    disk.read_at(0, &mut bytes)?;
    decode_label(alloc, device, len, &bytes)
}

fn kind_byte(device: Device) -> u8
    ensures { result ≡ kind_of device }
{
    match device {
        Device::Log => 0x4C,
        Device::Volume => 0x56,
    }
}

// The bytes behind the gate.
#[tactic(auto, unfolding(crate::specs::Label::label_bytes))]
fn encode_label(alloc: Global, device: Device, label: &Label) -> Result<Vec<u8>, AllocError>
    requires { length label.now.stores ≤ 64 }
    ensures text { IfOk result (λ bytes. bytes.items ≡ label_bytes device label.now) }
    ensures len { IfOk result (λ bytes. length bytes.items ≡ 511) }
{
    let mut bytes = encode_head(alloc, device, label)?;
    push_stores(&mut bytes, label.stores.as_slice())?;
    bytes.resize(LABEL_BYTES - 1, 0)?;
    Ok(bytes)
}

#[tactic(auto, unfolding(crate::specs::Label::label_head))]
fn encode_head(alloc: Global, device: Device, label: &Label) -> Result<Vec<u8>, AllocError>
    requires { length label.now.stores ≤ 64 }
    ensures text { IfOk result (λ bytes. bytes.items ≡ label_head device label.now) }
    ensures len { IfOk result (λ bytes. length bytes.items ≡ 31) }
{
    let mut bytes = Vec::with_capacity(alloc, LABEL_BYTES)?;
    bytes.push(kind_byte(device))?;
    bytes.extend_from_slice(&label.version.number().to_le_bytes())?;
    bytes.extend_from_slice(&(label.version.page_bytes() as u32).to_le_bytes())?;
    bytes.extend_from_slice(&label.pair.to_le_bytes())?;
    bytes.extend_from_slice(&label.length.to_le_bytes())?;
    bytes.extend_from_slice(&label.max_locks.to_le_bytes())?;
    bytes.extend_from_slice(&(label.stores.as_slice().len() as u32).to_le_bytes())?;
    Ok(bytes)
}

fn push_stores(bytes: &mut Vec<u8>, stores: &[u32]) -> Result<(), AllocError>
    requires { length bytes.old.items + 4 * length stores.now ≤ 511 }
    ensures text { OnOk result (bytes.new.items ≡ bytes.old.items ++ flat_map (little_bytes 4) stores.now) }
    ensures len { OnOk result (length bytes.new.items ≡ length bytes.old.items + 4 * length stores.now) }
{
    for pages in stores {
        bytes.extend_from_slice(&pages.to_le_bytes())?;
    }
    Ok(())
}

// The label that the bytes of a device of this length hold.
fn decode_label(alloc: Global, device: Device, len: u64, bytes: &[u8]) -> Result<Label, Fault>
    requires long { LEAST_DEVICE_BYTES ≤ len }
    requires whole { length bytes.now ≡ 512 }
    ensures found { IfOk result (HoldsLabel device len bytes.now) }
    ensures only { (label : Label) → HoldsLabel device len bytes.now label → MatchResult result (λ l. l ≡ label) (λ fault. fault ≡ Fault.Memory) }
    ensures passed { OnOk result (label_verdict device len bytes.now ≡ Ok tt) }
    ensures refused { IfErr result (λ fault. (fault ≡ Fault.Memory) ⊎ (label_verdict device len bytes.now ≡ Err fault)) }
{
    let (version, stores) = check_label(alloc, device, len, bytes)?;
    Ok(Label {
        version,
        pair: u64_at(bytes, 8),
        length: len,
        max_locks: u32_at(bytes, 24),
        stores: Sequence::from_vec(stores),
    })
}

// Makes each check, and answers the version and the pages of the stores.
fn check_label(
    alloc: Global,
    device: Device,
    len: u64,
    bytes: &[u8],
) -> Result<(Version, Vec<u32>), Fault>
    requires long { LEAST_DEVICE_BYTES ≤ len }
    requires whole { length bytes.now ≡ 512 }
    ensures passed { IfOk result (λ read. (label_verdict device len bytes.now ≡ Ok tt) × (read.0 ≡ version_in bytes.now) × (read.1.items ≡ stores_of bytes.now)) }
    ensures refused { IfErr result (λ fault. (fault ≡ Fault.Memory) ⊎ (label_verdict device len bytes.now ≡ Err fault)) }
{
    let version = check_kind(device, bytes)?;
    let count = check_fields(version, device, len, bytes)?;
    let stores = u32s_at(alloc, bytes, STORES_AT, count)?;
    let pages = check_stores(device, &stores)?;
    check_end(version, device, len, bytes, count, pages)?;
    Ok((version, stores))
}

// Checks that it is a label of this device, and answers its version.
fn check_kind(device: Device, bytes: &[u8]) -> Result<Version, Fault>
    requires { length bytes.now ≡ 512 }
    ensures passed { (len : ℕ) → LEAST_DEVICE_BYTES ≤ len → IfOk result (λ version. (judged (kind_checks device len bytes.now) ≡ Ok tt) × (version ≡ version_in bytes.now)) }
    ensures refused { (len : ℕ) → LEAST_DEVICE_BYTES ≤ len → IfErr result (λ fault. judged (kind_checks device len bytes.now) ≡ Err fault) }
{
    if !is_open(bytes[0]) || bytes[1] != kind_byte(device) {
        return Err(Fault::NotFormatted);
    }
    match Version::of(u16_at(bytes, 2)) {
        Some(version) => Ok(version),
        None => Err(Fault::WrongVersion),
    }
}

// Checks the fields before the stores, and answers how many stores there are.
fn check_fields(version: Version, device: Device, len: u64, bytes: &[u8]) -> Result<usize, Fault>
    requires { length bytes.now ≡ 512 }
    ensures passed { IfOk result (λ count. (judged (field_checks version device len bytes.now) ≡ Ok tt) × (count ≡ number_at bytes.now 28 4) × (count ≤ 64)) }
    ensures refused { IfErr result (λ fault. judged (field_checks version device len bytes.now) ≡ Err fault) }
{
    if u32_at(bytes, 4) != version.page_bytes() as u32 {
        return Err(Fault::damaged(device, 4));
    }
    if u64_at(bytes, LENGTH_AT as usize) != len || !has_limits(version, device, len) {
        return Err(Fault::damaged(device, LENGTH_AT));
    }
    if !(LEAST_MAX_LOCKS..=MOST_MAX_LOCKS).contains(&u32_at(bytes, 24)) {
        return Err(Fault::damaged(device, 24));
    }
    let count = u32_at(bytes, 28) as usize;
    if !(1..=MAX_STORES).contains(&count) {
        return Err(Fault::damaged(device, 28));
    }
    Ok(count)
}

// Whether a device of any stores may have this length.
fn has_limits(version: Version, device: Device, len: u64) -> bool
    ensures { result ≡ may_be_long version device len }
{
    match device {
        Device::Log => (version.least_log()..=MAX_LOG_BYTES).contains(&len),
        Device::Volume => true,
    }
}

// Checks the pages of each store, and answers the pages of all of them.
fn check_stores(device: Device, stores: &[u32]) -> Result<u64, Fault>
    requires { length stores.now ≤ 64 }
    ensures passed { IfOk result (λ pages. (judged (store_checks device 32 0 stores.now) ≡ Ok tt) × (pages ≡ sum stores.now) × (pages ≤ 65536)) }
    ensures refused { IfErr result (λ fault. judged (store_checks device 32 0 stores.now) ≡ Err fault) }
{
    let mut offset = STORES_AT as u64;
    let mut total = 0;
    for pages in stores {
        total += u64::from(*pages);
        if *pages == 0 || total > u64::from(MAX_PAGES) {
            return Err(Fault::damaged(device, offset));
        }
        offset += 4;
    }
    Ok(total)
}

// Checks what comes behind so many stores, and the length of a volume of so many pages.
fn check_end(
    version: Version,
    device: Device,
    len: u64,
    bytes: &[u8],
    count: usize,
    pages: u64,
) -> Result<(), Fault>
    requires whole { length bytes.now ≡ 512 }
    requires few { count ≤ 64 }
    requires small { pages ≤ 65536 }
    ensures { result ≡ judged (end_checks version device len bytes.now count pages) }
{
    let end = STORES_AT + 4 * count;
    if !are_zero(&bytes[end..]) {
        return Err(Fault::damaged(device, end as u64));
    }
    if !is_filled(version, device, pages, len) {
        return Err(Fault::damaged(device, LENGTH_AT));
    }
    Ok(())
}

// Whether a device of so many pages has this length.
fn is_filled(version: Version, device: Device, pages: u64, len: u64) -> bool
    requires { pages ≤ 65536 }
    ensures { result ≡ is_filled version device pages len }
{
    match device {
        Device::Log => true,
        Device::Volume => len == version.pages_begin() + version.page_bytes() as u64 * pages,
    }
}
