//! The cells of a line, which tabs stand between.
use mix_base::NoMemory;
use percent_encoding::percent_decode;
use std::alloc::Global;

/// The cell at a place, counted from 0; empty where the line has none there.
pub fn cell(line: &str, place: usize) -> &str {
    line.split('\t').nth(place).unwrap_or("")
}

/// The number of a cell, and 0 where it has none.
pub fn number(line: &str, place: usize) -> u64 {
    cell(line, place).parse::<u64>().unwrap_or(0)
}

/// The bytes of a cell: a percent sign and two hexadecimal digits stand for one (RFC 3986).
pub fn decoded(alloc: Global, cell: &str) -> Result<Vec<u8>, NoMemory> {
    let mut bytes = Vec::new(alloc);
    percent_decode(cell.as_bytes()).append_to(&mut bytes)?;
    Ok(bytes)
}

/// The bytes of all cells from a place on, each written `N*PIECE`: so many times the piece.
pub fn pieces(alloc: Global, line: &str, place: usize) -> Result<Vec<u8>, NoMemory> {
    let mut bytes = Vec::new(alloc);
    for cell in line.split('\t').skip(place) {
        append(alloc, &mut bytes, cell)?;
    }
    Ok(bytes)
}

/// Appends what a cell `N*PIECE` stands for.
fn append(alloc: Global, bytes: &mut Vec<u8>, cell: &str) -> Result<(), NoMemory> {
    let (times, piece) = cell.split_once('*').unwrap_or(("1", cell));
    let piece = decoded(alloc, piece)?;
    for _ in 0..times.parse::<u32>().unwrap_or(0) {
        bytes.extend_from_slice(piece.as_slice())?;
    }
    Ok(())
}
