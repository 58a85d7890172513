//! Pixels of a raster that are repeated in a row.
ghost use Rattle.std.specs.Prelude.{◌≡◌, ◌+◌, ◌*◌, ◌≤◌, ◌<◌, ℕ, length, get_or, IsTrue};
ghost use Rattle.mix_model.specs.Colours.{bytes_of, colour_at};
ghost use Rattle.mix_raster.specs.Spans.{AreRepeated};

use crate::pixels::{four_at, put};

/// Whether some places count on by one, each so many times.
fn count_on(places: &[u32], times: usize) -> bool
    requires some { 0 < times }
    ensures { IsTrue result → AreRepeated times places.now }
{
    for i in 0..places.len() {
        if places[i] < places[0] || (places[i] - places[0]) as usize != i / times {
            return false;
        }
    }
    true
}

/// How often each of some places stands, up to four times, where they count on by one, else 0.
pub(crate) fn times_of(places: &[u32]) -> usize
    ensures { AreRepeated result places.now }
{
    for times in 1..5 {
        if count_on(places, times) {
            return times;
        }
    }
    0
}

/// Writes a pixel so many times, from the one of this number on.
#[inline(always)]
fn put_times(row: &mut [u8], first: usize, times: usize, pixel: [u8; 4])
    requires { 4 * (first + times) ≤ length row.old }
    ensures here { (i : ℕ) → i < times → bytes_of (colour_at row.new (4 * (first + i))) ≡ pixel }
    ensures before { (k : ℕ) → k + 4 ≤ 4 * first → colour_at row.new k ≡ colour_at row.old k }
{
    for i in 0..times {
        put(row, 4 * (first + i), pixel);
    }
}

/// Fills a row with pixels of a raster, each so many times.
#[inline(always)]
fn fill_times(row: &mut [u8], pixels: &[u8], columns: &[u32], start: usize, times: usize)
    requires some { 0 < times }
    requires repeated { AreRepeated times columns.now }
    requires room { 4 * length columns.now ≤ length row.old }
    requires inside { (i : ℕ) → i < length columns.now →
        4 * (start + get_or columns.now i 0) + 4 ≤ length pixels.now }
    ensures shown { (i : ℕ) → i < length columns.now → colour_at row.new (4 * i)
        ≡ colour_at pixels.now (4 * (start + get_or columns.now i 0)) }
{
    if columns.is_empty() {
        return;
    }
    let from = start + columns[0] as usize;
    let whole = columns.len() / times;
    for k in 0..whole {
        put_times(row, k * times, times, four_at(pixels, 4 * (from + k)));
    }
    let at = whole * times;
    if at < columns.len() {
        let last = four_at(pixels, 4 * (from + whole));
        put_times(row, at, columns.len() - at, last);
    }
}

/// Fills a row with pixels of a raster, from one on, where it is known how often each is repeated, and
/// says whether it did. The loop is compiled for each number of times.
pub(crate) fn fill_repeated(
    row: &mut [u8],
    pixels: &[u8],
    columns: &[u32],
    start: usize,
    times: usize,
) -> bool
    requires repeated { AreRepeated times columns.now }
    requires room { 4 * length columns.now ≤ length row.old }
    requires inside { (i : ℕ) → i < length columns.now →
        4 * (start + get_or columns.now i 0) + 4 ≤ length pixels.now }
    ensures shown { IsTrue result → (i : ℕ) → i < length columns.now → colour_at row.new (4 * i)
        ≡ colour_at pixels.now (4 * (start + get_or columns.now i 0)) }
{
    match times {
        1 => fill_times(row, pixels, columns, start, 1),
        2 => fill_times(row, pixels, columns, start, 2),
        3 => fill_times(row, pixels, columns, start, 3),
        4 => fill_times(row, pixels, columns, start, 4),
        _ => return false,
    }
    true
}
