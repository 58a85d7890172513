//! The payloads of a record: the bytes of pictures, and those of tracks of sound.
ghost use Rattle.std.specs.Prelude.{◌≡◌, IfSome, IsTrue, negsuc, pos};
ghost use Rattle.std.specs.List.{list_all};
ghost use Rattle.mix_model.specs.Pictures.{is_picture};
ghost use Rattle.mix_model.specs.Sounds.{is_block};
ghost use Rattle.mix_model.specs.Values.{is_within};

use mix_base::{Bytes, ListOf, NoMemory};
use mix_encode::{pcm_s16le, raw_i420, raw_rgba};
use mix_model::{Block, Picture};
use mix_tables::{Table, cell};
use std::alloc::Global;
use std::fmt::Write;

/// Cells: the bytes of a picture, then `rgba` or `i420`, its width and height, and its pixels in
/// red, green, blue and alpha; bytes are in hexadecimal.
pub struct Pictures;

impl Table for Pictures {
    fn found(&self, alloc: Global, line: &str) -> Result<String, NoMemory> {
        let width = cell(line, 2).parse::<u16>().unwrap_or(0);
        let height = cell(line, 3).parse::<u16>().unwrap_or(0);
        let rgba = bytes_of(alloc, cell(line, 4))?;
        written(alloc, cell(line, 1), width, height, rgba)
    }
}

/// Bytes of hexadecimal digits; none where the text has others.
fn bytes_of(alloc: Global, digits: &str) -> Result<Vec<u8>, NoMemory> {
    match hex::decode(alloc, digits) {
        Ok(bytes) => Ok(bytes),
        Err(_) => Ok(Vec::new(alloc)),
    }
}

/// What a picture of these pixels is written as.
fn written(
    alloc: Global,
    format: &str,
    width: u16,
    height: u16,
    rgba: Vec<u8>,
) -> Result<String, NoMemory> {
    let Some(picture) = picture(width, height, rgba) else {
        return Ok(String::from_str(alloc, "no picture")?);
    };
    let bytes = match format {
        "rgba" => raw_rgba(alloc, &picture),
        _ => planes(alloc, &picture),
    };
    drop(picture);
    let bytes = bytes?;
    let digits = hex::encode(alloc, bytes.as_slice());
    drop(bytes);
    Ok(digits?)
}

/// The picture, where there are as many bytes as its sides say.
fn picture(width: u16, height: u16, rgba: Vec<u8>) -> Option<Picture>
    ensures whole { IfSome result (λ picture. IsTrue (is_picture picture)) }
{
    let pixels = u64::from(width) * u64::from(height);
    if rgba.len() as u64 != 4 * pixels {
        drop(rgba);
        return None;
    }
    Some(Picture {
        width: u32::from(width),
        height: u32::from(height),
        rgba: ListOf::from_vec(rgba),
    })
}

/// The three planes of a picture; nothing where a side is odd.
fn planes(alloc: Global, picture: &Picture) -> Result<Bytes, NoMemory>
    requires whole { IsTrue (is_picture picture.now) }
{
    if picture.width % 2 == 1 || picture.height % 2 == 1 {
        return Ok(ListOf::from_vec(Vec::new(alloc)));
    }
    raw_i420(alloc, picture)
}

/// Cells: for each track of a mask its first bytes in hexadecimal, with spaces between them, and how
/// many bytes there are in all; then the mask, and the samples of a block that isn't silent
/// elsewhere: `PLACE:SAMPLE`, with spaces between them.
pub struct Tracks;

impl Table for Tracks {
    fn found(&self, alloc: Global, line: &str) -> Result<String, NoMemory> {
        let mask = cell(line, 1).parse::<u8>().unwrap_or(0);
        let block = marked(alloc, cell(line, 2))?;
        if !is_block(&block) || 63 < mask {
            drop(block);
            return Ok(String::from_str(alloc, "no block")?);
        }
        let bytes = pcm_s16le(alloc, &block, mask);
        drop(block);
        let bytes = bytes?;
        let found = firsts(alloc, bytes.as_slice());
        drop(bytes);
        found
    }
}

/// How many bytes a track has.
const TRACK: usize = 4096;

/// How many of its first bytes are shown.
const SHOWN: usize = 12;

/// The first bytes of each track.
fn firsts(alloc: Global, bytes: &[u8]) -> Result<String, NoMemory> {
    let mut found = String::new(alloc);
    for track in bytes.chunks(TRACK) {
        let shown = track.get(..SHOWN).unwrap_or(track);
        let digits = hex::encode(alloc, shown)?;
        found.push_str(digits.as_str())?;
        drop(digits);
        found.push_str(" ")?;
    }
    write!(found, "of {}", bytes.len())?;
    Ok(found)
}

/// A block that is silent but for the samples of a text.
fn marked(alloc: Global, text: &str) -> Result<Block, NoMemory> {
    let mut tracks = vec![in alloc; 0; 12_288]?;
    for mark in text.split(' ') {
        let (place, sample) = mark.split_once(':').unwrap_or(("", ""));
        let place = place.parse::<usize>().unwrap_or(12_288);
        if place < tracks.len() {
            tracks[place] = sample.parse::<i32>().unwrap_or(0);
        }
    }
    Ok(Block {
        tracks: ListOf::from_vec(tracks),
    })
}

/// Whether a sample fits sixteen bits.
fn fits(sample: i32) -> bool
    ensures { result ≡ is_within (negsuc 32767) (pos 32767) sample }
{
    -32_768 <= sample && sample <= 32_767
}

fn all_fit(samples: &[i32]) -> bool
    ensures { result ≡ list_all (is_within (negsuc 32767) (pos 32767)) samples.now }
{
    samples.iter().all(|sample| fits(*sample))
}

/// Whether it is a block.
fn is_block(block: &Block) -> bool
    ensures { result ≡ is_block block.now }
{
    let samples = block.tracks.as_slice();
    samples.len() == 12_288 && all_fit(samples)
}
