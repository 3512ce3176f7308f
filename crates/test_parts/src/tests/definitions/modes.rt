//! The tables of modes.
use super::steps::is_blank;
use super::words::Words;
use shore_modes::{allowed, coexist, covers, grants, parent_mode, sup};
use shore_types::{Level, Mode};

const MODES: [Mode; 6] = [Mode::IS, Mode::IX, Mode::SH, Mode::SIX, Mode::EX, Mode::UD];

// Of each mode what it comes to with each of the six, in the order above: whether both may be held together, whether the first
// grants the second when another asks, whether it covers the second below it, and the least mode above both. Then what the parents
// of a lock in each of the six are held in, and which of them may be asked at each level.
const TABLES: &str = "
coexist IS yes yes yes yes no no
coexist IX yes yes no no no no
coexist SH yes no yes no no yes
coexist SIX yes no no no no no
coexist EX no no no no no no
coexist UD no no yes no no no
grants IS yes yes yes yes no no
grants IX yes yes no no no no
grants SH yes no yes no no yes
grants SIX yes no no no no no
grants EX no no no no no no
grants UD no no no no no no
covers IS no no no no no no
covers IX no no no no no no
covers SH yes no yes no no no
covers SIX yes no yes no no no
covers EX yes yes yes yes yes yes
covers UD no no no no no no
sup IS IS IX SH SIX EX UD
sup IX IX IX SIX SIX EX EX
sup SH SH SIX SH SIX EX UD
sup SIX SIX SIX SIX SIX EX EX
sup EX EX EX EX EX EX EX
sup UD UD EX UD EX EX UD
parent - IS IX IS IX IX IX
allowed volume yes yes yes yes yes no
allowed store yes yes yes yes yes no
allowed page yes yes yes yes yes no
allowed record no no yes no yes yes
";

#[test]
fn mode_tables(rt: HostRuntime) {
    for line in TABLES.lines() {
        assert!(rt; is_blank(line) || is_line(&mut Words::of(line)), "{line}");
    }
}

fn is_line(words: &mut Words) -> bool {
    let table = words.word();
    let first = words.word();
    for second in &MODES {
        if entry(table, first, *second) != Some(words.word()) {
            return false;
        }
    }
    words.end()
}

// What the table says of the two.
fn entry(table: &str, first: &str, second: Mode) -> Option<&'static str> {
    match table {
        "parent" => Some(name_of(parent_mode(second))),
        "allowed" => Some(answer(allowed(level_of(first)?, second))),
        _ => entry_of_modes(table, mode_of(first)?, second),
    }
}

fn entry_of_modes(table: &str, first: Mode, second: Mode) -> Option<&'static str> {
    match table {
        "coexist" => Some(answer(coexist(first, second))),
        "grants" => Some(answer(grants(first, second))),
        "covers" => Some(answer(covers(first, second))),
        "sup" => Some(name_of(sup(first, second))),
        _ => None,
    }
}

fn answer(holds: bool) -> &'static str {
    if holds { "yes" } else { "no" }
}

fn level_of(word: &str) -> Option<Level> {
    match word {
        "volume" => Some(Level::Volume),
        "store" => Some(Level::Store),
        "page" => Some(Level::Page),
        "record" => Some(Level::Record),
        _ => None,
    }
}

pub(super) fn mode_of(word: &str) -> Option<Mode> {
    match word {
        "IS" => Some(Mode::IS),
        "IX" => Some(Mode::IX),
        "SH" => Some(Mode::SH),
        "SIX" => Some(Mode::SIX),
        "EX" => Some(Mode::EX),
        "UD" => Some(Mode::UD),
        _ => None,
    }
}

fn name_of(mode: Mode) -> &'static str {
    match mode {
        Mode::IS => "IS",
        Mode::IX => "IX",
        Mode::SH => "SH",
        Mode::SIX => "SIX",
        Mode::EX => "EX",
        Mode::UD => "UD",
    }
}
