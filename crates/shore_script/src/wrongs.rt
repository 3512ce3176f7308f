//! What is wrong with a line that is none of the script's, in words for whoever wrote it.
use crate::lines::MAX_LINE_BYTES;
use crate::words;
use std::alloc::Global;
use std::io::{self, Write};

/// The longest word that is shown.
const SHOWN_BYTES: usize = 60;

/// A line's first word, and the words that follow it.
type Form = (&'static str, &'static str);

/// What a session calls, after its number.
const CALLS: [Form; 17] = [
    ("begin", ""),
    ("insert", "STORE BYTES"),
    ("get", "RECORD"),
    ("getu", "RECORD"),
    ("update", "RECORD BYTES"),
    ("delete", "RECORD"),
    ("scan", "STORE"),
    ("lock", "GRANULE MODE"),
    ("try", "GRANULE MODE"),
    ("savepoint", ""),
    ("back", "N"),
    ("commit", ""),
    ("lazy", ""),
    ("abort", ""),
    ("prepare", "GLOBAL"),
    ("resolve", "GLOBAL OUTCOME"),
    ("indoubt", ""),
];

/// The other lines. Of those with one first word the longest.
const OTHERS: [Form; 11] = [
    ("dump", ""),
    ("log", ""),
    ("locks", ""),
    ("durable", "N"),
    ("threads", "THREADS TIMES RECORD"),
    ("force", ""),
    ("flush", ""),
    ("checkpoint", "HALF"),
    ("crash", "PICK"),
    ("fuse", "DEVICE N"),
    ("nextfuse", "DEVICE N"),
];

/// Writes what is wrong with a line that `read_line` finds nothing in.
pub fn write_wrong<W: Write>(alloc: Global, out: &mut W, line: &[u8]) -> io::Result<()> {
    if line.len() > MAX_LINE_BYTES {
        return write!(out, "it has more than {MAX_LINE_BYTES} bytes");
    }
    match str::from_utf8(line) {
        Ok(text) => write_wrong_text(alloc, out, text),
        Err(_) => out.write_all(b"it is no UTF-8"),
    }
}

fn write_wrong_text<W: Write>(alloc: Global, out: &mut W, text: &str) -> io::Result<()> {
    let (first, rest) = cut(text);
    if text.ends_with('\r') {
        out.write_all(b"it ends in a carriage return")
    } else if words::session(first).is_some() {
        write_wrong_words(alloc, out, &CALLS, rest)
    } else if first.starts_with(|c: char| c.is_ascii_digit()) {
        write_word(out, first)?;
        out.write_all(b" is no session: a number from 1 to 999")
    } else if form_of(&CALLS, first).is_some() {
        write!(out, "a session's number comes first, such as '1 {first}'")
    } else {
        write_wrong_words(alloc, out, &OTHERS, text)
    }
}

fn write_wrong_words<W: Write>(
    alloc: Global,
    out: &mut W,
    forms: &[Form],
    text: &str,
) -> io::Result<()> {
    let (verb, rest) = cut(text);
    let Some(form) = form_of(forms, verb) else {
        write_word(out, verb)?;
        return out.write_all(b" begins no line; words are separated by one space");
    };
    for (name, word) in form.split(' ').zip(rest.split(' ')) {
        if !fits(alloc, name, word) {
            write_word(out, word)?;
            return write!(out, " is no {name}; '{verb}' takes: {form}");
        }
    }
    if form.is_empty() {
        write!(out, "'{verb}' takes nothing")
    } else {
        write!(out, "'{verb}' takes: {form}")
    }
}

// A word as it was written, but for a long one: nobody is to be kept waiting by what is written here.
fn write_word<W: Write>(out: &mut W, word: &str) -> io::Result<()> {
    if word.len() > SHOWN_BYTES {
        return write!(out, "a word of {} bytes", word.len());
    }
    write!(out, "{word:?}")
}

// The text up to its first space, and what is behind that.
fn cut(text: &str) -> (&str, &str) {
    text.split_once(' ').unwrap_or((text, ""))
}

fn form_of(forms: &[Form], verb: &str) -> Option<&'static str> {
    for (word, form) in forms {
        if *word == verb {
            return Some(*form);
        }
    }
    None
}

// Whether a word is such as a form names.
fn fits(alloc: Global, name: &str, word: &str) -> bool {
    match name {
        "STORE" => words::store(word).is_some(),
        "RECORD" => words::record(word).is_some(),
        "GRANULE" => words::granule(word).is_some(),
        "MODE" => words::mode(word).is_some(),
        "BYTES" => !matches!(words::bytes(alloc, word), Ok(None)),
        "GLOBAL" => !matches!(words::global(alloc, word), Ok(None)),
        "OUTCOME" => matches!(word, "commit" | "abort"),
        "N" => words::number(word).is_some(),
        "THREADS" => words::threads(word).is_some(),
        "TIMES" => words::rounds(word).is_some(),
        "HALF" => matches!(word, "begin" | "end"),
        "DEVICE" => matches!(word, "log" | "volume"),
        "PICK" => matches!(word, "old" | "new" | "noise"),
        _ => word.is_empty(),
    }
}
