//! What no clause says: that calls go through where there is memory, and a few rules at work.
mod conversations;
mod copied;
mod engines;
mod fanouts;
mod have;
mod histories;
mod masks;
