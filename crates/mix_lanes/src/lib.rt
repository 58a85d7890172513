//! Rows of pixels laid over others, and rows of bytes faded to others, sixteen bytes at a time.
#![tactic(auto)]

mod fading;
mod fours;
mod lanes;
mod mode;
mod over;
mod pixel;
mod quotients;

pub use fading::{fade_onto, fade_row};
pub use over::over_row;
