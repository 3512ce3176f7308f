//! A manager whose core lies under one lock and whose log device under another, over plain data: what a loss of power leaves of both devices at any moment. No code runs here.
#![tactic(auto)]

pub mod amid;
pub mod worked;
