//! Worked runs, with answers, records and waits written out by hand.
mod analysis;
mod histories;
mod history_lines;
mod kept_logs;
mod limits;
mod locks;
mod log_lines;
mod logs;
mod modes;
mod steps;
mod words;
