//! Managers over a pair of devices in memory: short runs, crashed at each device call, and sessions side by side, judged by the slow functions.
//! Tests alone, in a crate beside the chain, so that nothing waits for them.
#![tactic(auto)]

#[cfg(test)]
mod tests;
