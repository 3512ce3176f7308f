//! What the program reads and prints: the settings that a manager is made with, the lines of a script, what they ask for, the answers as they are printed, and how
//! a run ends.
#![tactic(auto)]

mod command;
mod counting;
mod fuses;
pub mod laws;
mod lines;
pub mod render;
mod settings;
mod stop;
mod words;
mod wrongs;

pub use command::{Command, read_line};
pub use counting::Counting;
pub use fuses::{Fuse, Fuses};
pub use lines::Lines;
pub use settings::{Devices, FilePair, Settings, WrongLines, read_settings};
pub use stop::{Status, Stop};
pub use wrongs::write_wrong;
