//! What is shown with an answer.
use mix_model::{Block, Picture};

/// What is shown with an answer: the picture of a frame, the sound of a block, or nothing.
#[derive(Drop)]
pub enum Shown {
    Nothing,
    Picture(Picture),
    Block(Block),
}
