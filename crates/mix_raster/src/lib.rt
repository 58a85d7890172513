//! Painting: the picture of a shot, and the mean of two pictures.
#![tactic(auto)]

mod axis;
mod band;
mod fill;
mod hiding;
mod layer;
mod lead;
mod mixing;
mod painting;
mod pixels;
mod repeats;
mod span;
mod turns;
mod way;
mod workers;

pub use mixing::mix_pictures;
pub use painting::paint;
pub use workers::paint_rows;
