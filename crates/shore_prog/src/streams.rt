//! Where a script's lines are answered.
use std::io::Write;

/// Where the answers of lines go, and what a person can do about a refusal.
#[derive(Drop)]
pub struct Streams<'s, W: Write, E: Write> {
    /// The answers.
    pub out: &'s mut W,
    /// The causes of refusals.
    pub errors: &'s mut E,
}
