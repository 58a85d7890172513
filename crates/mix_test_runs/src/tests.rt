//! Whole runs over sources and sinks in memory.
mod conversation;
mod faults;
mod history;
mod long;
mod running;
mod waiting;
mod words;
