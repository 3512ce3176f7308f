//! The words of a script line: numbers, ids and bytes.
ghost use Rattle.std.specs.Prelude.{◌≡◌, ◌^◌, IfOk};
ghost use Rattle.std.specs.List.{list_any};
ghost use Rattle.shore_script.specs.Bytes.{AreCopies, IsPair, IsPairs, SpellsBytes, is_upper};
ghost use Rattle.shore_script.specs.Ids.{IsCount, IsGranule, IsNumber, IsPage, IsRecord, IsSession};
ghost use Rattle.shore_script.specs.Reading.{Reads};
ghost use Rattle.shore_types.specs.Names.{mode_name};

use hex::FromHexError;
use shore_types::{
    Bytes, GlobalId, Granule, Lsn, Mode, PageId, Rid, Sequence, SessionId, StoreId, Ticket,
};
use std::alloc::{AllocError, Global};

/// The most bytes that the form `HH*N` repeats.
const MOST_COPIES: u64 = 99_999;
/// The greatest session number.
const MOST_SESSIONS: u32 = 999;
/// The most threads of a line.
const MOST_THREADS: u32 = 16;
/// The most transactions that each of them makes.
const MOST_ROUNDS: u32 = 1_000;

/// A decimal number with no sign and no leading zero.
pub fn number(word: &str) -> Option<u64>
    ensures { Reads (IsNumber (2 ^ 64) word.now) result }
{
    // `parse` takes a plus sign and leading zeros.
    if word.starts_with('+') || (word.starts_with('0') && word.len() > 1) {
        return None;
    }
    word.parse::<u64>().ok()
}

fn short_number(word: &str) -> Option<u32>
    ensures { Reads (IsNumber (2 ^ 32) word.now) result }
{
    u32::try_from(number(word)?).ok()
}

/// The index of a savepoint.
pub fn index(word: &str) -> Option<usize>
    ensures { Reads (IsNumber (2 ^ 64) word.now) result }
{
    Some(number(word)? as usize)
}

/// A ticket, by its number.
pub fn ticket(word: &str) -> Option<Ticket>
    ensures { Reads (IsNumber (2 ^ 64) word.now) result }
{
    Some(Ticket::of(Lsn(number(word)?)))
}

/// A session, 1 to 999.
pub fn session(word: &str) -> Option<SessionId>
    ensures { Reads (IsSession word.now) result }
{
    Some(SessionId(count(word, MOST_SESSIONS)?))
}

/// How many threads, 1 to 16.
pub fn threads(word: &str) -> Option<u32>
    ensures { Reads (IsCount MOST_THREADS word.now) result }
{
    count(word, MOST_THREADS)
}

/// How many transactions of each, 1 to 1,000.
pub fn rounds(word: &str) -> Option<u32>
    ensures { Reads (IsCount MOST_ROUNDS word.now) result }
{
    count(word, MOST_ROUNDS)
}

// A number from 1 to the most.
fn count(word: &str, most: u32) -> Option<u32>
    ensures { Reads (IsCount most word.now) result }
{
    let number = short_number(word)?;
    if 1 <= number && number <= most {
        Some(number)
    } else {
        None
    }
}

/// A store, as `0`.
pub fn store(word: &str) -> Option<StoreId>
    ensures { Reads (IsNumber (2 ^ 32) word.now) result }
{
    Some(StoreId(short_number(word)?))
}

/// A granule: the volume `v`, a store, a page as `0.1`, or a record.
pub fn granule(word: &str) -> Option<Granule>
    ensures { Reads (IsGranule word.now) result }
{
    if word == "v" {
        return Some(Granule::Volume);
    }
    if let Some(id) = record(word) {
        return Some(Granule::Record(id));
    }
    if let Some(id) = page(word) {
        return Some(Granule::Page(id));
    }
    Some(Granule::Store(store(word)?))
}

fn page(word: &str) -> Option<PageId>
    ensures { Reads (IsPage word.now) result }
{
    let (store_word, page_word) = word.split_once('.')?;
    page_of(store_word, page_word)
}

fn page_of(store_word: &str, page_word: &str) -> Option<PageId>
    ensures { Reads (λ page. IsNumber (2 ^ 32) store_word.now page.store × IsNumber (2 ^ 32) page_word.now page.page) result }
{
    Some(PageId {
        store: store(store_word)?,
        page: short_number(page_word)?,
    })
}

/// A mode of a lock.
pub fn mode(word: &str) -> Option<Mode>
    ensures { Reads (λ mode. word.now ≡ mode_name mode) result }
{
    match word {
        "IS" => Some(Mode::IS),
        "IX" => Some(Mode::IX),
        "SH" => Some(Mode::SH),
        "SIX" => Some(Mode::SIX),
        "UD" => Some(Mode::UD),
        "EX" => Some(Mode::EX),
        _ => None,
    }
}

/// A record, as `0.1.2`.
pub fn record(word: &str) -> Option<Rid>
    ensures { Reads (IsRecord word.now) result }
{
    let (store_word, rest) = word.split_once('.')?;
    let (page_word, slot_word) = rest.split_once('.')?;
    let page = page_of(store_word, page_word)?;
    let slot = u16::try_from(number(slot_word)?).ok()?;
    Some(Rid { page, slot })
}

/// Bytes: pairs of lower-case hexadecimal digits, `HH*N` for so many times one byte, or `-` for none.
/// `Ok(None)`: the word is none of these.
pub fn bytes(alloc: Global, word: &str) -> Result<Option<Bytes>, AllocError>
    ensures { IfOk result (Reads (SpellsBytes word.now)) }
{
    if word == "-" {
        return Ok(Some(Sequence::new(alloc)));
    }
    match word.split_once('*') {
        Some((pair, count)) => copies(alloc, pair, count),
        None => pairs(alloc, word),
    }
}

/// A global id: pairs of lower-case hexadecimal digits. `Ok(None)`: the word is none.
pub fn global(alloc: Global, word: &str) -> Result<Option<GlobalId>, AllocError>
    ensures { IfOk result (Reads (IsPairs word.now)) }
{
    pairs(alloc, word)
}

// A byte by its pair of digits, as often as a number says.
fn copies(alloc: Global, pair: &str, count: &str) -> Result<Option<Bytes>, AllocError>
    ensures { IfOk result (Reads (AreCopies pair.now count.now)) }
{
    let (Some(byte), Some(count)) = (one_byte(alloc, pair)?, number(count)) else {
        return Ok(None);
    };
    if count == 0 || count > MOST_COPIES {
        return Ok(None);
    }
    let copies = Vec::from_elem(alloc, byte, count as usize)?;
    Ok(Some(Sequence::from_vec(copies)))
}

fn one_byte(alloc: Global, pair: &str) -> Result<Option<u8>, AllocError>
    ensures { IfOk result (Reads (IsPair pair.now)) }
{
    Ok(match pairs(alloc, pair)? {
        Some(found) => match found.as_slice() {
            [byte] => Some(*byte),
            _ => None,
        },
        None => None,
    })
}

// The bytes of some pairs of lower-case digits: "aa" is the byte 0xAA. None if the word is no such text.
fn pairs(alloc: Global, word: &str) -> Result<Option<Bytes>, AllocError>
    ensures { IfOk result (Reads (IsPairs word.now)) }
{
    if word.is_empty() || has_upper(word.as_bytes()) {
        return Ok(None);
    }
    match hex::decode(alloc, word.as_bytes()) {
        Ok(bytes) => Ok(Some(Sequence::from_vec(bytes))),
        Err(error) => match error {
            FromHexError::OutOfMemory => Err(AllocError),
            _ => Ok(None),
        },
    }
}

// Digits in upper case, which are none of the script's.
fn has_upper(word: &[u8]) -> bool
    ensures { result ≡ list_any is_upper word.now }
{
    word.iter().any(|byte| is_upper(*byte))
}

fn is_upper(byte: u8) -> bool
    ensures { result ≡ is_upper byte }
{
    (b'A'..=b'F').contains(&byte)
}
