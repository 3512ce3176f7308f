//! Runs worked by hand, of the definitions: the slow functions are tested on them, and what an analysis of a log finds.
//! Tests alone, beside the chain, so that nothing waits for them and the slow functions are proved once; in one crate, since each crate of tests has a dear start.
#![tactic(auto)]

#[cfg(test)]
mod tests;
