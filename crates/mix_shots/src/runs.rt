//! Pictures as texts.
use mix_base::NoMemory;
use mix_model::Picture;
use sha2::{Digest, Sha256};
use std::alloc::Global;

/// No text of a picture is longer.
const LONGEST: usize = 4000;

/// The pixels of a picture in hexadecimal, row by row, equal ones that follow one another as
/// `N*PIXEL`, or where that is a long text the digest of its bytes; or that it isn't of this size.
pub fn picture_text(
    alloc: Global,
    picture: &Picture,
    size: (u32, u32),
) -> Result<String, NoMemory> {
    if picture.width != size.0 || picture.height != size.1 {
        return Ok(String::from_str(alloc, "another size")?);
    }
    let bytes = picture.rgba.as_slice();
    let text = runs_text(alloc, bytes)?;
    if text.len() <= LONGEST {
        return Ok(text);
    }
    drop(text);
    digest_text(alloc, bytes)
}

fn digest_text(alloc: Global, bytes: &[u8]) -> Result<String, NoMemory> {
    let mut hasher = Sha256::new();
    hasher.update(bytes);
    let digest: [u8; 32] = hasher.finalize();
    let digits = hex::encode(alloc, digest.as_slice())?;
    Ok(format!(in alloc; "sha256:{digits}")?)
}

fn runs_text(alloc: Global, bytes: &[u8]) -> Result<String, NoMemory> {
    let mut text = String::new(alloc);
    let mut pixels = bytes.chunks(4);
    let mut last = pixels.next().unwrap_or(&[]);
    let mut times: u64 = 1;
    for pixel in pixels {
        if pixel == last {
            times = times.saturating_add(1);
        } else {
            push_run(alloc, &mut text, times, last)?;
            last = pixel;
            times = 1;
        }
    }
    push_run(alloc, &mut text, times, last)?;
    Ok(text)
}

/// Appends a run, after a space where something stands before it.
fn push_run(alloc: Global, text: &mut String, times: u64, pixel: &[u8]) -> Result<(), NoMemory> {
    if pixel.is_empty() {
        return Ok(());
    }
    if !text.is_empty() {
        text.push_str(" ")?;
    }
    let digits = hex::encode(alloc, pixel)?;
    let run = format!(in alloc; "{times}*{digits}")?;
    text.push_str(run.as_str())?;
    Ok(())
}
