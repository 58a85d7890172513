//! Rows of pixels over others, and on the way to others.
ghost use Rattle.std.specs.Prelude.{◌≡◌, ◌*◌, ◌≤◌, IfOk, length};

use mix_base::NoMemory;
use mix_lanes::{fade_row, over_row};
use mix_model::Blend;
use mix_tables::{Table, cell, number};
use sha2::{Digest, Sha256};
use std::alloc::Global;

/// No row of a case has more pixels.
const MOST: u64 = 4096;

/// Cells: the row that comes of it, then the mode and how many pixels both rows have. Byte i is 37 · i
/// in the row above and 101 · i in the one below, modulo 256.
pub struct Rows;

impl Table for Rows {
    fn found(&self, alloc: Global, line: &str) -> Result<String, NoMemory> {
        let pixels = pixels_in(line, 2);
        let above = bytes(alloc, pixels, 37)?;
        let mut below = bytes(alloc, pixels, 101)?;
        over_row(
            below.as_mut_slice(),
            above.as_slice(),
            blend_of(cell(line, 1)),
        );
        row_text(alloc, below.as_slice())
    }
}

/// Cells: the row that comes of it, then t and n, and how many pixels the rows have. Byte i is 37 · i
/// in the row that is left and 101 · i in the one that comes, modulo 256.
pub struct Fades;

impl Table for Fades {
    fn found(&self, alloc: Global, line: &str) -> Result<String, NoMemory> {
        let t = small(number(line, 1));
        let n = small(number(line, 2));
        if n <= t {
            return Ok(String::from_str(alloc, "no weights")?);
        }
        let pixels = pixels_in(line, 3);
        let from = bytes(alloc, pixels, 37)?;
        let to = bytes(alloc, pixels, 101)?;
        let mut into = bytes(alloc, pixels, 0)?;
        fade_row(into.as_mut_slice(), from.as_slice(), to.as_slice(), t, n);
        row_text(alloc, into.as_slice())
    }
}

fn small(number: u64) -> u32 {
    u32::try_from(number).unwrap_or(u32::MAX)
}

fn pixels_in(line: &str, place: usize) -> usize
    ensures { result ≤ 4096 }
{
    number(line, place).min(MOST) as usize
}

/// A row of so many pixels, in which each byte is so much more than the one before.
fn bytes(alloc: Global, pixels: usize, step: u8) -> Result<Vec<u8>, NoMemory>
    requires { pixels ≤ 4096 }
    ensures { IfOk result (λ row. length row.items ≡ 4 * pixels) }
{
    let mut row = vec![in alloc; 0; 4 * pixels]?;
    let mut byte: u8 = 0;
    for place in row.iter_mut() {
        *place = byte;
        byte = byte.wrapping_add(step);
    }
    Ok(row)
}

fn blend_of(word: &str) -> Blend {
    match word {
        "Additive" => Blend::Additive,
        "Subtract" => Blend::Subtract,
        "Screen" => Blend::Screen,
        "Multiply" => Blend::Multiply,
        "Lighten" => Blend::Lighten,
        "Darken" => Blend::Darken,
        _ => Blend::Normal,
    }
}

/// The bytes of a short row in hexadecimal, and the digest of a longer one.
fn row_text(alloc: Global, row: &[u8]) -> Result<String, NoMemory> {
    if row.len() <= 68 {
        return Ok(hex::encode(alloc, row)?);
    }
    let mut hasher = Sha256::new();
    hasher.update(row);
    let digest: [u8; 32] = hasher.finalize();
    let digits = hex::encode(alloc, digest.as_slice())?;
    Ok(format!(in alloc; "sha256:{digits}")?)
}
