//! The settings, read from a TOML text.
ghost use Rattle.std.specs.Prelude.{◌≡◌, ◌≤◌, ◌∷◌, [], IfOk, IfSome, option_map};
ghost use Rattle.std.specs.Bool.{MatchBool};
ghost use Rattle.toml.specs.Data.{boolean, string};
ghost use Rattle.toml.specs.View.{table_view, view};
ghost use Rattle.shore_types.specs.Layout.{IsInLimits};
ghost use Rattle.shore_types.specs.declared.config.Setting.TheVariants as setting;
ghost use Rattle.shore_script.specs.Keys.{AreDevices, AreSettingsOf, AreStores, AreWritten, AreWrongLines, IsFlag, IsNumberOr, IsPath, IsUnusedPath, IsVersion, NamesFiles, NamesMemory, whole, written};
ghost use Rattle.shore_script.specs.Limits.{AreInLimits, IsFrameCount};

use shore_types::layout::{MAX_LOG_BYTES, MAX_POOL_FRAMES, MIN_POOL_FRAMES};
use shore_types::{ConfigPlace, Fault, Geometry, Sequence, Setting, Text, Version};
use std::alloc::{AllocError, Global};
use toml::{Table, Value};

const DEFAULT_PAIR: u64 = 1;

const DEFAULT_LOG_BYTES: u64 = 1_052_672;

const DEFAULT_STORE_PAGES: u32 = 2;

const DEFAULT_MAX_LOCKS: u32 = 1024;

const DEFAULT_POOL_FRAMES: u32 = 64;

/// Where the two devices are.
#[derive(Drop)]
pub enum Devices {
    /// In memory, and formatted at the start.
    Memory,
    Files(FilePair),
}

/// Two files.
#[derive(Drop)]
pub struct FilePair {
    /// They are made anew and formatted at the start, or opened as they are. Without a word on it they are made anew as long as neither holds a byte.
    pub is_made_anew: Option<bool>,
    /// The path of the log.
    pub log: Text,
    /// The path of the volume.
    pub volume: Text,
}

/// What becomes of a run at a wrong line.
#[derive(Clone, Copy, PartialEq)]
pub enum WrongLines {
    /// It ends.
    End,
    /// The line is refused, and the run goes on.
    Refuse,
}

/// How the manager is made, and its script is read.
#[derive(Drop)]
pub struct Settings {
    /// Memory, or two files.
    pub devices: Devices,
    /// The pair's version, number, stores and lock nodes.
    pub geometry: Geometry,
    /// The length of the log device.
    pub log_bytes: u64,
    /// The frames of the page pool.
    pub pool: u32,
    /// Whether a wrong line ends the run.
    pub wrong_lines: WrongLines,
    /// A path that is written though the devices are in memory, so that no file is used.
    pub unused_path: Option<Setting>,
}

fn refused(setting: Setting) -> Fault {
    Fault::BadConfig(ConfigPlace::Setting(setting))
}

/// The settings of a TOML text. Each key has a default. Refused by `BadConfig`: a text that is no TOML; then the least unknown key
/// by bytes; then the first key, in the order of the settings, with a wrong value. `Memory` if an allocation failed.
pub fn read_settings(alloc: Global, text: &str) -> Result<Settings, Fault>
    ensures limits { IfOk result AreInLimits }
    ensures written { IfOk result (AreSettingsOf text.now) }
{
    let table = match toml::table_from_str(alloc, text) {
        Ok(table) => table,
        Err(error) if error.is_memory() => return Err(Fault::Memory),
        Err(_) => return Err(Fault::BadConfig(ConfigPlace::Toml)),
    };
    refuse_unknown(alloc, &table)?;
    settings_of(alloc, &table)
}

fn settings_of(alloc: Global, table: &Table) -> Result<Settings, Fault>
    ensures limits { IfOk result AreInLimits }
    ensures written { IfOk result (AreWritten (table_view table.now)) }
{
    let devices = devices_of(alloc, table)?;
    let pair = number_or(table, Setting::Pair, DEFAULT_PAIR)?;
    let log_bytes = number_or(table, Setting::LogBytes, DEFAULT_LOG_BYTES)?;
    // It comes behind these, and says how short a log may be: where it is wrong, as short as any.
    let named = version_of(table);
    let version = named.unwrap_or(Version::One);
    if log_bytes < version.least_log() || log_bytes > MAX_LOG_BYTES {
        return Err(refused(Setting::LogBytes));
    }
    let geometry = geometry_of(alloc, table, version, pair)?;
    let pool = pool_of(table)?;
    if named.is_none() {
        return Err(refused(Setting::Version));
    }
    let wrong_lines = wrong_lines_of(table)?;
    let unused_path = unused_path_of(table, &devices);
    Ok(Settings {
        devices,
        geometry,
        log_bytes,
        pool,
        wrong_lines,
        unused_path,
    })
}

fn geometry_of(alloc: Global, table: &Table, version: Version, pair: u64) -> Result<Geometry, Fault>
    ensures limits { IfOk result IsInLimits }
    ensures version { IfOk result (λ geometry. geometry.version ≡ version) }
    ensures pair { IfOk result (λ geometry. geometry.pair ≡ pair) }
    ensures stores { IfOk result (λ geometry. AreStores (written (table_view table.now) setting.Stores) geometry.stores) }
    ensures max_locks { IfOk result (λ geometry. IsNumberOr DEFAULT_MAX_LOCKS (written (table_view table.now) setting.MaxLocks) geometry.max_locks) }
{
    let max_locks = short_number_or(table, Setting::MaxLocks, DEFAULT_MAX_LOCKS);
    let geometry = Geometry {
        version,
        pair,
        max_locks: max_locks.unwrap_or(0),
        stores: stores_of(alloc, table)?,
    };
    match geometry.outside_limits() {
        Some(setting) => Err(refused(setting)),
        None => Ok(geometry),
    }
}

fn pool_of(table: &Table) -> Result<u32, Fault>
    ensures limits { IfOk result IsFrameCount }
    ensures written { IfOk result (IsNumberOr DEFAULT_POOL_FRAMES (written (table_view table.now) setting.Pool)) }
{
    let frames = short_number_or(table, Setting::Pool, DEFAULT_POOL_FRAMES).unwrap_or(0);
    if (frames as usize) < MIN_POOL_FRAMES || frames as usize > MAX_POOL_FRAMES {
        return Err(refused(Setting::Pool));
    }
    Ok(frames)
}

// The version that is named, the first by default; None if no version is.
fn version_of(table: &Table) -> Option<Version>
    ensures { IfSome result (IsVersion (written (table_view table.now) setting.Version)) }
{
    match value_of(table, Setting::Version) {
        None => Some(Version::One),
        Some(value) => Version::of(u16::try_from(number_in(value)?).ok()?),
    }
}

fn wrong_lines_of(table: &Table) -> Result<WrongLines, Fault>
    ensures { IfOk result (AreWrongLines (written (table_view table.now) setting.WrongLines)) }
{
    match value_of(table, Setting::WrongLines) {
        None => Ok(WrongLines::End),
        Some(value) => match text_in(value) {
            Some("end") => Ok(WrongLines::End),
            Some("refuse") => Ok(WrongLines::Refuse),
            _ => Err(refused(Setting::WrongLines)),
        },
    }
}

fn unused_path_of(table: &Table, devices: &Devices) -> Option<Setting>
    ensures { IsUnusedPath (table_view table.now) devices.now result }
{
    if let Devices::Files(_) = devices {
        return None;
    }
    if value_of(table, Setting::LogPath).is_some() {
        return Some(Setting::LogPath);
    }
    if value_of(table, Setting::VolumePath).is_some() {
        return Some(Setting::VolumePath);
    }
    None
}

const KNOWN: [Setting; 11] = [
    Setting::Devices,
    Setting::Format,
    Setting::LogPath,
    Setting::VolumePath,
    Setting::Pair,
    Setting::LogBytes,
    Setting::Stores,
    Setting::MaxLocks,
    Setting::Pool,
    Setting::Version,
    Setting::WrongLines,
];

// The table keeps its keys in the order of their bytes.
fn refuse_unknown(alloc: Global, table: &Table) -> Result<(), Fault> {
    for key in table.keys() {
        if !KNOWN.iter().any(|setting| setting.key() == key.as_str()) {
            let name = Text::of(String::from_str(alloc, key.as_str())?);
            return Err(Fault::BadConfig(ConfigPlace::UnknownKey(name)));
        }
    }
    Ok(())
}

fn value_of<'a>(table: &'a Table, setting: Setting) -> Option<&'a Value>
    ensures { option_map (λ value. view value.now) result ≡ written (table_view table.now) setting }
{
    table.get(setting.key())
}

// Devices in memory don't use the keys of files, but these are checked.
fn devices_of(alloc: Global, table: &Table) -> Result<Devices, Fault>
    ensures { IfOk result (AreDevices (table_view table.now)) }
{
    let in_files = are_files(table)?;
    let is_made_anew = flag(table, Setting::Format)?;
    if in_files {
        let log = path_of(alloc, table, Setting::LogPath)?;
        let volume = path_of(alloc, table, Setting::VolumePath)?;
        return Ok(Devices::Files(FilePair {
            is_made_anew,
            log,
            volume,
        }));
    }
    check_path(table, Setting::LogPath)?;
    check_path(table, Setting::VolumePath)?;
    Ok(Devices::Memory)
}

fn are_files(table: &Table) -> Result<bool, Fault>
    ensures { IfOk result (λ files. MatchBool files (NamesFiles (written (table_view table.now) setting.Devices)) (NamesMemory (written (table_view table.now) setting.Devices))) }
{
    match value_of(table, Setting::Devices) {
        None => Ok(false),
        Some(value) => match text_in(value) {
            Some("memory") => Ok(false),
            Some("files") => Ok(true),
            _ => Err(refused(Setting::Devices)),
        },
    }
}

fn flag(table: &Table, setting: Setting) -> Result<Option<bool>, Fault>
    ensures { IfOk result (IsFlag (written (table_view table.now) setting)) }
{
    match value_of(table, setting) {
        None => Ok(None),
        Some(value) => match flag_in(value) {
            Some(flag) => Ok(Some(flag)),
            None => Err(refused(setting)),
        },
    }
}

fn flag_in(value: &Value) -> Option<bool>
    ensures { IfSome result (λ flag. view value.now ≡ boolean flag) }
{
    value.as_bool()
}

fn path_of(alloc: Global, table: &Table, setting: Setting) -> Result<Text, Fault>
    ensures { IfOk result (IsPath (written (table_view table.now) setting)) }
{
    match value_of(table, setting) {
        Some(value) => match text_in(value) {
            Some(path) => Ok(Text::of(String::from_str(alloc, path)?)),
            None => Err(refused(setting)),
        },
        None => Err(refused(setting)),
    }
}

fn text_in(value: &Value) -> Option<&str>
    ensures { IfSome result (λ text. view value.now ≡ string text.now) }
{
    value.as_str()
}

// A path that is not used, and may be missing.
fn check_path(table: &Table, setting: Setting) -> Result<(), Fault> {
    match value_of(table, setting) {
        Some(value) if value.as_str().is_none() => Err(refused(setting)),
        _ => Ok(()),
    }
}

// A whole number from 0.
fn number_in(value: &Value) -> Option<u64>
    ensures { IfSome result (λ n. view value.now ≡ whole n) }
{
    u64::try_from(value.as_integer()?).ok()
}

fn number_or(table: &Table, setting: Setting, default: u64) -> Result<u64, Fault>
    ensures { IfOk result (IsNumberOr default (written (table_view table.now) setting)) }
{
    match value_of(table, setting) {
        None => Ok(default),
        Some(value) => number_in(value).ok_or(refused(setting)),
    }
}

fn short_number_or(table: &Table, setting: Setting, default: u32) -> Option<u32>
    ensures { IfSome result (IsNumberOr default (written (table_view table.now) setting)) }
{
    match value_of(table, setting) {
        None => Some(default),
        Some(value) => short_number_in(value),
    }
}

fn short_number_in(value: &Value) -> Option<u32>
    ensures { IfSome result (λ n. view value.now ≡ whole n) }
{
    u32::try_from(number_in(value)?).ok()
}

fn stores_of(alloc: Global, table: &Table) -> Result<Sequence<u32>, Fault>
    ensures { IfOk result (AreStores (written (table_view table.now) setting.Stores)) }
{
    let Some(value) = value_of(table, Setting::Stores) else {
        return Ok(one_store(alloc)?);
    };
    let Some(counts) = value.as_array() else {
        return Err(refused(Setting::Stores));
    };
    let mut stores = Sequence::new(alloc);
    for count in counts {
        match short_number_in(count) {
            Some(pages) => stores.push(pages)?,
            None => return Err(refused(Setting::Stores)),
        }
    }
    Ok(stores)
}

fn one_store(alloc: Global) -> Result<Sequence<u32>, AllocError>
    ensures { IfOk result (λ stores. stores ≡ DEFAULT_STORE_PAGES ∷ []) }
{
    let mut stores = Sequence::new(alloc);
    stores.push(DEFAULT_STORE_PAGES)?;
    Ok(stores)
}
