//! Where the settings or the script are wrong.
ghost use Rattle.std.specs.Prelude.{◌≡◌, Some, string_bytes, nat_eq};
ghost use Rattle.std.specs.Cmp.Lexicographic.{pointwise, nat_list_eq_equiv};
ghost use Rattle.std.specs.Cmp.{partial_equiv_from_equiv};
ghost use Rattle.shore_types.specs.Config.{key_of, place_text};

use std::fmt;
use std::marker::Model;

/// A setting, in the order in which settings are checked.
#[derive(Clone, Copy, PartialEq)]
pub enum Setting {
    /// Where the devices are, in memory or in files.
    Devices,
    /// Whether files are made anew.
    Format,
    /// The file of the log.
    LogPath,
    /// The file of the volume.
    VolumePath,
    /// The number of the pair of devices.
    Pair,
    /// The length of the log device.
    LogBytes,
    /// The pages of each store.
    Stores,
    /// The most lock nodes.
    MaxLocks,
    /// The frames of the pool.
    Pool,
    /// The version of the formats.
    Version,
    /// Whether a wrong line of the script ends the run.
    WrongLines,
    /// The length of the volume device, which follows from the stores. No settings text has this key.
    VolumeBytes,
}

impl Setting {
    /// Its key in the settings.
    pub fn key(self) -> &'static str
        ensures { result.now ≡ key_of self }
    {
        match self {
            Setting::Devices => "devices",
            Setting::Format => "format",
            Setting::LogPath => "log_path",
            Setting::VolumePath => "volume_path",
            Setting::Pair => "pair",
            Setting::LogBytes => "log_bytes",
            Setting::Stores => "stores",
            Setting::MaxLocks => "max_locks",
            Setting::Pool => "pool",
            Setting::Version => "version",
            Setting::WrongLines => "wrong_lines",
            Setting::VolumeBytes => "volume_bytes",
        }
    }
}

impl fmt::Display for Setting {
    ghost output = { λ setting. Some (key_of setting) };

    fn fmt<W: fmt::Write>(&self, f: &mut fmt::Formatter<W>) -> fmt::Result {
        f.write_str(self.key())
    }
}

/// A text. A contract sees it as its bytes.
#[derive(Drop)]
pub struct Text {
    // The text.
    text: String,
}

impl Model for Text {
    ghost use Rattle.std.specs.Prelude.{List, ℕ, string_bytes};

    ghost Value = { List ℕ };

    ghost view = { λ t. string_bytes t.text };
}

impl Text {
    pub fn of(text: String) -> Text
        ensures { result ≡ string_bytes text }
    {
        Text { text }
    }

    pub fn as_str(&self) -> &str
        ensures { result.now ≡ self.now }
    {
        self.text.as_str()
    }
}

impl PartialEq for Text {
    ghost eq = { pointwise nat_eq };

    ghost laws = { partial_equiv_from_equiv nat_list_eq_equiv };

    fn eq(&self, other: &Text) -> bool {
        self.as_str() == other.as_str()
    }
}

/// What is wrong in the settings or in the script.
#[derive(Drop, PartialEq)]
pub enum ConfigPlace {
    /// The settings are no settings text, or no script follows them.
    Toml,
    /// This setting is missing, or has a value that it may not have.
    Setting(Setting),
    /// The settings have this key, which is none of theirs.
    UnknownKey(Text),
    /// The line of the script, counted from 1.
    Line(u64),
}

impl fmt::Display for ConfigPlace {
    ghost output = { λ place. Some (place_text place) };

    fn fmt<W: fmt::Write>(&self, f: &mut fmt::Formatter<W>) -> fmt::Result {
        match self {
            ConfigPlace::Toml => f.write_str("toml"),
            ConfigPlace::Setting(setting) => write!(f, "{setting}"),
            ConfigPlace::UnknownKey(key) => f.write_str(key.as_str()),
            ConfigPlace::Line(line) => write!(f, "line {line}"),
        }
    }
}
