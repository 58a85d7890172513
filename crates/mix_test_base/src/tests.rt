//! What takes memory answers what it is asked for, and what no clause says of the outside.
mod copies;
mod files;
mod have;
mod lines;
mod memory;
mod names;
mod objects;
mod places;
mod shelves;
mod shots;
mod texts;
