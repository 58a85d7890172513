//! The text of a picture.
ghost use Rattle.std.specs.Prelude.{◌≡◌, ◌≤◌, ◌*◌, IfOk, IsTrue, length, string_bytes};
ghost use Rattle.mix_model.specs.Pictures.{is_picture};
ghost use Rattle.mix_script.specs.PictureText.{pixels_text, digest_text, picture_text};

use mix_model::Picture;
use sha2::{Digest, Sha256};
use std::alloc::{AllocError, Global};

/// A picture of so many pixels at most is written pixel by pixel.
const MOST_WRITTEN: usize = 64;

/// The first pixels of a picture with these bytes.
fn pixels_text(alloc: Global, rgba: &[u8], pixels: usize) -> Result<String, AllocError>
    requires few { 4 * pixels ≤ length rgba.now }
    ensures value { IfOk result (λ text. string_bytes text ≡ pixels_text rgba.now pixels) }
{
    let mut text = String::new(alloc);
    for pixel in 0..pixels {
        let start = 4 * pixel;
        let digits = hex::encode(alloc, &rgba[start..start + 3])?;
        text.push_str(" ")?;
        text.push_str(digits.as_str())?;
    }
    Ok(text)
}

fn digest_text(alloc: Global, rgba: &[u8]) -> Result<String, AllocError>
    ensures value { IfOk result (λ text. string_bytes text ≡ digest_text rgba.now) }
{
    let mut hasher = Sha256::new();
    hasher.update(rgba);
    let digest: [u8; 32] = hasher.finalize();
    let digits = hex::encode(alloc, digest.as_slice())?;
    format!(in alloc; " sha256:{digits}")
}

/// Each pixel of a small picture, and the digest of a larger one.
#[tactic(auto, unfolding(crate::specs::PictureText::picture_text))]
pub fn picture_text(alloc: Global, picture: &Picture) -> Result<String, AllocError>
    requires whole { IsTrue (is_picture picture.now) }
    ensures value { IfOk result (λ text. string_bytes text ≡ picture_text picture.now) }
{
    let rgba = picture.rgba.as_slice();
    let pixels = picture.width as usize * picture.height as usize;
    if pixels <= MOST_WRITTEN {
        pixels_text(alloc, rgba, pixels)
    } else {
        digest_text(alloc, rgba)
    }
}
