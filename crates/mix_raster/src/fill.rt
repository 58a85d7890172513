//! What a draw shows in one row of the canvas.
ghost use Rattle.std.specs.Prelude.{◌≡◌, ◌+◌, ◌*◌, ◌≤◌, ◌<◌, ℕ, length, get_or, IsTrue, IfSome};
ghost use Rattle.mix_model.specs.Colours.{bytes_of, colour_at};
ghost use Rattle.mix_model.specs.Plans.{is_draw};
ghost use Rattle.mix_model.specs.Sizes.{size_of};
ghost use Rattle.mix_model.specs.Values.{are_valid};
ghost use Rattle.mix_raster.specs.Spans.{AreRepeated};
ghost use Rattle.mix_raster.specs.Ways.{across_side, down_side, pixel_led, place_led, AreWithin, IsShown, Shows};

use crate::pixels::{four_at, put};
use crate::repeats::fill_repeated;
use crate::span::hide_all;
use mix_model::{Draw, Settings};
use mix_sources::pixel;

/// What a row of pixels shows.
#[derive(Clone, Copy)]
pub(crate) struct Shown {
    /// The line of the source.
    pub line: u32,
    /// Whether it hides what it lies over.
    pub hides: bool,
}

/// The pixel of an input where a column and a line lead to.
fn pixel_met(
    settings: &Settings,
    since: u64,
    tick: u64,
    swap: bool,
    column: u32,
    line: u32,
) -> [u8; 4]
    requires valid { IsTrue (are_valid settings.now) }
    requires time { since ≤ tick }
    requires column { column < across_side swap (size_of settings.now (0, 0)) }
    requires line { line < down_side swap (size_of settings.now (0, 0)) }
    ensures value { result ≡ bytes_of (pixel_led settings.now since tick swap column line) }
{
    if swap {
        pixel(settings, since, tick, line, column)
    } else {
        pixel(settings, since, tick, column, line)
    }
}

/// Fills a row pixel by pixel.
fn fill_each(row: &mut [u8], draw: &Draw, tick: u64, swap: bool, columns: &[u32], line: u32)
    requires draw { IsTrue (is_draw draw.now) }
    requires time { draw.now.since ≤ tick }
    requires within { AreWithin draw.now.settings swap columns.now line }
    requires room { 4 * length columns.now ≤ length row.old }
    ensures shown { Shows draw.now tick swap columns.now line row.new }
{
    for i in 0..columns.len() {
        let color = pixel_met(&draw.settings, draw.since, tick, swap, columns[i], line);
        put(row, 4 * i, color);
    }
}

/// Fills so many pixels of a row with one.
fn fill_alike(row: &mut [u8], count: usize, color: [u8; 4])
    requires room { 4 * count ≤ length row.old }
    ensures filled { (i : ℕ) → i < count → bytes_of (colour_at row.new (4 * i)) ≡ color }
{
    for i in 0..count {
        put(row, 4 * i, color);
    }
}

/// Fills a row whose pixels are all alike.
fn fill_plain(row: &mut [u8], draw: &Draw, tick: u64, swap: bool, columns: &[u32], line: u32)
    requires draw { IsTrue (is_draw draw.now) }
    requires time { draw.now.since ≤ tick }
    requires within { AreWithin draw.now.settings swap columns.now line }
    requires room { 4 * length columns.now ≤ length row.old }
    requires plain { (a b : ℕ) → pixel_led draw.now.settings draw.now.since tick swap a line
        ≡ pixel_led draw.now.settings draw.now.since tick swap b line }
    ensures shown { Shows draw.now tick swap columns.now line row.new }
{
    if columns.is_empty() {
        return;
    }
    let color = pixel_met(&draw.settings, draw.since, tick, swap, columns[0], line);
    fill_alike(row, columns.len(), color);
}

/// Fills a row with pixels of a raster, from one on, each so many further for each column.
fn fill_from(row: &mut [u8], pixels: &[u8], columns: &[u32], start: usize, stride: usize)
    requires room { 4 * length columns.now ≤ length row.old }
    requires inside { (i : ℕ) → i < length columns.now →
        4 * (start + get_or columns.now i 0 * stride) + 4 ≤ length pixels.now }
    ensures shown { (i : ℕ) → i < length columns.now → colour_at row.new (4 * i)
        ≡ colour_at pixels.now (4 * (start + get_or columns.now i 0 * stride)) }
{
    for i in 0..columns.len() {
        let from = 4 * (start + columns[i] as usize * stride);
        put(row, 4 * i, four_at(pixels, from));
    }
}

/// Where a line of a raster of this width begins, and how far apart its pixels lie. Where columns and
/// rows are exchanged, its lines are its columns.
fn line_of(width: u32, swap: bool, line: u32) -> (usize, usize)
    requires small { (line < 4096) × (width ≤ 4096) }
    ensures value { (column : ℕ) → result.0 + column * result.1 ≡ place_led width swap column line }
{
    if swap {
        (line as usize, width as usize)
    } else {
        (line as usize * width as usize, 1)
    }
}

/// Fills a row with a line of a raster.
fn fill_raster(
    row: &mut [u8],
    pixels: &[u8],
    width: u32,
    swap: bool,
    columns: &[u32],
    times: usize,
    line: u32,
)
    requires small { (line < 4096) × (width ≤ 4096) }
    requires repeated { AreRepeated times columns.now }
    requires room { 4 * length columns.now ≤ length row.old }
    requires inside { (i : ℕ) → i < length columns.now →
        4 * place_led width swap (get_or columns.now i 0) line + 4 ≤ length pixels.now }
    ensures shown { (i : ℕ) → i < length columns.now → colour_at row.new (4 * i)
        ≡ colour_at pixels.now (4 * place_led width swap (get_or columns.now i 0) line) }
{
    let (start, stride) = line_of(width, swap, line);
    if stride == 1 && fill_repeated(row, pixels, columns, start, times) {
        return;
    }
    fill_from(row, pixels, columns, start, stride);
}

/// Whether each line of an input shows one colour.
fn is_plain(settings: &Settings, swap: bool) -> bool
    ensures plain { IsTrue result → (since tick line a b : ℕ) →
        pixel_led settings.now since tick swap a line
        ≡ pixel_led settings.now since tick swap b line }
{
    match settings {
        Settings::Color { .. } => true,
        Settings::Scroll { .. } => swap,
        _ => false,
    }
}

/// Fills a row with a line of a draw's source.
fn fill_row(
    row: &mut [u8],
    draw: &Draw,
    tick: u64,
    swap: bool,
    columns: &[u32],
    times: usize,
    line: u32,
)
    requires draw { IsTrue (is_draw draw.now) }
    requires time { draw.now.since ≤ tick }
    requires within { AreWithin draw.now.settings swap columns.now line }
    requires repeated { AreRepeated times columns.now }
    requires room { 4 * length columns.now ≤ length row.old }
    ensures shown { Shows draw.now tick swap columns.now line row.new }
{
    if is_plain(&draw.settings, swap) {
        return fill_plain(row, draw, tick, swap, columns, line);
    }
    match &draw.settings {
        Settings::Raster { pixels, width, .. } => {
            fill_raster(row, pixels.bytes(), *width, swap, columns, times, line)
        }
        _ => fill_each(row, draw, tick, swap, columns, line),
    }
}

/// Whether two lines of an input show the same.
fn are_alike(settings: &Settings, swap: bool, one: u32, other: u32) -> bool
    requires valid { IsTrue (are_valid settings.now) }
    ensures alike { IsTrue result → (since tick column : ℕ) →
        pixel_led settings.now since tick swap column one
        ≡ pixel_led settings.now since tick swap column other }
{
    match settings {
        Settings::Color { .. } => true,
        Settings::Checker { cell, .. } => one / *cell % 2 == other / *cell % 2,
        Settings::Scroll { .. } => !swap || one == other,
        _ => one == other,
    }
}

/// Makes a row show a line of a draw's source. It may show another one already, which saves the work
/// where both are alike.
pub(crate) fn show(
    row: &mut [u8],
    draw: &Draw,
    tick: u64,
    swap: bool,
    columns: &[u32],
    times: usize,
    line: u32,
    shown: Option<Shown>,
) -> Shown
    requires draw { IsTrue (is_draw draw.now) }
    requires time { draw.now.since ≤ tick }
    requires within { AreWithin draw.now.settings swap columns.now line }
    requires repeated { AreRepeated times columns.now }
    requires room { 4 * length columns.now ≤ length row.old }
    requires shown { IfSome shown (IsShown draw.now tick swap columns.now row.old) }
    ensures line { result.line ≡ line }
    ensures shown { IsShown draw.now tick swap columns.now row.new result }
{
    if let Some(other) = shown {
        if are_alike(&draw.settings, swap, other.line, line) {
            return Shown { line, ..other };
        }
    }
    fill_row(row, draw, tick, swap, columns, times, line);
    let hides = hide_all(row, columns.len(), draw.blend);
    Shown { line, hides }
}
