//! The tables of lock modes.
ghost use Rattle.std.specs.Prelude.{◌≡◌};
ghost use Rattle.shore_model.specs.Modes as modes;

use shore_types::{Level, Mode};

/// Whether two holders of one granule are compatible (the compatibility matrix).
pub fn coexist(a: Mode, b: Mode) -> bool
    ensures { result ≡ modes.coexist a b }
{
    match (a, b) {
        (Mode::IS, Mode::IS | Mode::IX | Mode::SH | Mode::SIX) => true,
        (Mode::IX, Mode::IS | Mode::IX) => true,
        (Mode::SH, Mode::IS | Mode::SH | Mode::UD) => true,
        (Mode::SIX, Mode::IS) => true,
        (Mode::UD, Mode::SH) => true,
        _ => false,
    }
}

/// Whether a mode that another holds lets the one that is asked be granted.
pub fn grants(held: Mode, asked: Mode) -> bool
    ensures { result ≡ modes.grants held asked }
{
    match (held, asked) {
        (Mode::UD, Mode::SH) => false,
        _ => coexist(held, asked),
    }
}

/// Whether the second mode allows all that the first does.
pub fn is_at_most(a: Mode, b: Mode) -> bool
    ensures { result ≡ modes.is_at_most a b }
{
    match (a, b) {
        (Mode::IS, _) => true,
        (_, Mode::EX) => true,
        (Mode::IX, Mode::IX | Mode::SIX) => true,
        (Mode::SH, Mode::SH | Mode::SIX | Mode::UD) => true,
        (Mode::SIX, Mode::SIX) => true,
        (Mode::UD, Mode::UD) => true,
        _ => false,
    }
}

/// The least mode above both, which a conversion asks for.
pub fn sup(a: Mode, b: Mode) -> Mode
    ensures { result ≡ modes.sup a b }
{
    match (a, b) {
        (Mode::IS, other) => other,
        (other, Mode::IS) => other,
        (Mode::IX, Mode::IX) => Mode::IX,
        (Mode::SH, Mode::SH) => Mode::SH,
        (Mode::IX | Mode::SH | Mode::SIX, Mode::IX | Mode::SH | Mode::SIX) => Mode::SIX,
        (Mode::SH | Mode::UD, Mode::SH | Mode::UD) => Mode::UD,
        _ => Mode::EX,
    }
}

/// Whether a mode held on an ancestor spares the one that is asked below it.
pub fn covers(held: Mode, asked: Mode) -> bool
    ensures { result ≡ modes.covers held asked }
{
    match (held, asked) {
        (Mode::EX, _) => true,
        (Mode::SH | Mode::SIX, Mode::IS | Mode::SH) => true,
        _ => false,
    }
}

/// What each ancestor is held in, or stronger, before a mode is taken below it.
pub fn parent_mode(mode: Mode) -> Mode
    ensures { result ≡ modes.parent_mode mode }
{
    match mode {
        Mode::IS | Mode::SH => Mode::IS,
        Mode::IX | Mode::SIX | Mode::EX | Mode::UD => Mode::IX,
    }
}

/// Whether a granule of the level may be asked in the mode.
pub fn allowed(level: Level, mode: Mode) -> bool
    ensures { result ≡ modes.is_allowed level mode }
{
    match (level, mode) {
        (_, Mode::SH | Mode::EX) => true,
        (Level::Record, Mode::UD) => true,
        (Level::Volume | Level::Store | Level::Page, Mode::IS | Mode::IX | Mode::SIX) => true,
        _ => false,
    }
}

/// Whether a holder in the mode may read what lies at or under the granule.
pub fn is_read(mode: Mode) -> bool
    ensures { result ≡ modes.is_read mode }
{
    matches!(mode, Mode::SH | Mode::SIX | Mode::EX | Mode::UD)
}

/// Whether a holder in the mode may write what lies at or under the granule.
pub fn is_write(mode: Mode) -> bool
    ensures { result ≡ modes.is_write mode }
{
    mode == Mode::EX
}
