//! A part of a row of pixels over as many pixels of the canvas.
ghost use Rattle.std.specs.Prelude.{◌≡◌, ◌+◌, ◌*◌, ◌≤◌, ◌<◌, ℕ, length, IsTrue};
ghost use Rattle.mix_model.specs.Colours.{colour_at};
ghost use Rattle.mix_model.specs.Blending.{over};
ghost use Rattle.mix_model.specs.declared.kind.Blend.TheVariants.{Normal};

use mix_lanes::over_row;
use mix_model::Blend;

/// Whether so many pixels of a row are opaque.
fn are_opaque(row: &[u8], count: usize) -> bool
    requires room { 4 * count ≤ length row.now }
    ensures opaque { IsTrue result → (i : ℕ) → i < count → (colour_at row.now (4 * i)).alpha ≡ 255 }
{
    for i in 0..count {
        if row[4 * i + 3] != 255 {
            return false;
        }
    }
    true
}

/// Whether so many pixels of a row hide what they lie over.
pub(crate) fn hide_all(row: &[u8], count: usize, blend: Blend) -> bool
    requires room { 4 * count ≤ length row.now }
    ensures normal { IsTrue result → blend ≡ Normal }
    ensures opaque { IsTrue result → (i : ℕ) → i < count → (colour_at row.now (4 * i)).alpha ≡ 255 }
{
    match blend {
        Blend::Normal => are_opaque(row, count),
        _ => false,
    }
}

/// Copies so many pixels of a row to the canvas.
fn copy_span(canvas: &mut [u8], row: &[u8], at: usize, count: usize)
    requires canvas { at + 4 * count ≤ length canvas.old }
    requires row { 4 * count ≤ length row.now }
    ensures here { (i : ℕ) → i < count →
        colour_at canvas.new (at + 4 * i) ≡ colour_at row.now (4 * i) }
    ensures before { (k : ℕ) → k + 4 ≤ at → colour_at canvas.new k ≡ colour_at canvas.old k }
    ensures after { (k : ℕ) → at + 4 * count ≤ k → colour_at canvas.new k ≡ colour_at canvas.old k }
{
    let end = at + 4 * count;
    canvas[at..end].copy_from_slice(&row[0..4 * count]);
}

/// Lays so many pixels of a row over the canvas.
fn lay_span(canvas: &mut [u8], row: &[u8], at: usize, count: usize, blend: Blend)
    requires canvas { at + 4 * count ≤ length canvas.old }
    requires row { 4 * count ≤ length row.now }
    ensures here { (i : ℕ) → i < count → colour_at canvas.new (at + 4 * i)
        ≡ over blend (colour_at row.now (4 * i)) (colour_at canvas.old (at + 4 * i)) }
    ensures before { (k : ℕ) → k + 4 ≤ at → colour_at canvas.new k ≡ colour_at canvas.old k }
    ensures after { (k : ℕ) → at + 4 * count ≤ k → colour_at canvas.new k ≡ colour_at canvas.old k }
{
    let end = at + 4 * count;
    over_row(&mut canvas[at..end], &row[0..4 * count], blend);
}

/// Lays so many pixels of a row over those of an opaque canvas. What hides these is copied.
pub(crate) fn over_span(
    canvas: &mut [u8],
    row: &[u8],
    at: usize,
    count: usize,
    blend: Blend,
    hides: bool,
)
    requires canvas { at + 4 * count ≤ length canvas.old }
    requires row { 4 * count ≤ length row.now }
    requires opaque { (i : ℕ) → i < count → (colour_at canvas.old (at + 4 * i)).alpha ≡ 255 }
    requires normal { IsTrue hides → blend ≡ Normal }
    requires hides { IsTrue hides → (i : ℕ) → i < count → (colour_at row.now (4 * i)).alpha ≡ 255 }
    ensures here { (i : ℕ) → i < count → colour_at canvas.new (at + 4 * i)
        ≡ over blend (colour_at row.now (4 * i)) (colour_at canvas.old (at + 4 * i)) }
    ensures before { (k : ℕ) → k + 4 ≤ at → colour_at canvas.new k ≡ colour_at canvas.old k }
    ensures after { (k : ℕ) → at + 4 * count ≤ k → colour_at canvas.new k ≡ colour_at canvas.old k }
{
    if hides {
        copy_span(canvas, row, at, count);
    } else {
        lay_span(canvas, row, at, count, blend);
    }
}
