//! Managers for sessions in threads. Tests alone, in a crate beside the chain, so that nothing waits for them.
#![tactic(auto)]

#[cfg(test)]
mod tests;
