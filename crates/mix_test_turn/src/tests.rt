//! Turns by one pass, by a tree of passes, and by threads beside one another.
mod alone;
mod gates;
mod numbers;
mod passes;
mod threads;
mod trees;
