//! Why a new item is refused: sources too deep, too many or too heavy.
ghost use Rattle.std.specs.Prelude.{◌≡◌, ◌+◌, ◌≤◌, ◌&&◌, ◌||◌, not, nat_le, nat_lt, length, IsTrue};
ghost use Rattle.std.specs.List.{list_all};
ghost use Rattle.mix_model.specs.Causes.{item_count};
ghost use Rattle.mix_store.specs.Searched.{RowsRise, IsNear, is_near, is_top};
ghost use Rattle.mix_shape.specs.NewItems.{rank_with, weight_with, late_cause_with};

use crate::held::{is_shown_by_some, shows_some};
use crate::search::{rank_from, weighed};
use mix_base::Serial;
use mix_model::{GraphFault, Row};
use mix_shape::NewItem;

/// Whether the row is the parent of the new item, or an item of it shows the parent.
fn is_near(row: &Row, new: &NewItem) -> bool
    ensures { result ≡ is_near new.now row.now }
{
    row.serial.0 == new.parent.0 || shows_some(row, new.parent)
}

/// Whether no row shows this one, where it shows the parent.
fn is_top(rows: &[Row], row: &Row, parent: Serial) -> bool
    ensures { result ≡ is_top parent rows.now row.now }
{
    !shows_some(row, parent) || !is_shown_by_some(rows, row.serial)
}

/// Whether no row shows those that show the parent.
pub fn are_tops(rows: &[Row], parent: Serial) -> bool
    ensures { result ≡ list_all (λ r. is_top parent rows.now r) rows.now }
{
    rows.iter().all(|row| is_top(rows, row, parent))
}

#[tactic(auto, unfolding(mix_shape::specs::NewItems::rank_with))]
fn is_shallow(rows: &[Row], new: &NewItem, serial: Serial) -> bool
    requires { RowsRise rows.now }
    ensures { result ≡ nat_le (rank_with new.now rows.now serial) 16 }
{
    rank_from(rows, new, 17, serial) <= 16
}

/// Whether the row is passed over, or no deeper than may be.
fn stays_shallow(rows: &[Row], new: &NewItem, row: &Row, near: bool) -> bool
    requires { RowsRise rows.now }
    ensures { result ≡ ((near && not (is_near new.now row.now))
        || nat_le (rank_with new.now rows.now row.now.serial) 16) }
{
    (near && !is_near(row, new)) || is_shallow(rows, new, row.serial)
}

fn all_shallow(rows: &[Row], new: &NewItem, near: bool) -> bool
    requires { RowsRise rows.now }
    ensures { result ≡ list_all (λ r. (near && not (is_near new.now r))
        || nat_le (rank_with new.now rows.now r.serial) 16) rows.now }
{
    rows.iter().all(|row| stays_shallow(rows, new, row, near))
}

/// Whether no row gets too deep, where the others stay as they are if only near ones are looked at.
fn are_shallow(rows: &[Row], new: &NewItem, near: bool) -> bool
    requires rising { RowsRise rows.now }
    requires near { IsTrue near → IsNear new.now rows.now }
    ensures { result ≡ list_all (λ r. nat_le (rank_with new.now rows.now r.serial) 16) rows.now }
{
    all_shallow(rows, new, near)
}

#[tactic(auto, unfolding(mix_shape::specs::NewItems::weight_with))]
fn is_light(rows: &[Row], new: &NewItem, serial: Serial) -> bool
    requires { RowsRise rows.now }
    ensures { result ≡ nat_le (weight_with new.now rows.now serial) 4096 }
{
    match weighed(rows, new, 17, serial, 4096) {
        Some(_) => true,
        None => false,
    }
}

/// Whether the row is passed over, or no heavier than may be.
fn stays_light(rows: &[Row], new: &NewItem, row: &Row, near: bool) -> bool
    requires { RowsRise rows.now }
    ensures { result ≡ ((near && not (is_near new.now row.now))
        || nat_le (weight_with new.now rows.now row.now.serial) 4096) }
{
    (near && !is_near(row, new)) || is_light(rows, new, row.serial)
}

fn all_light(rows: &[Row], new: &NewItem, near: bool) -> bool
    requires { RowsRise rows.now }
    ensures { result ≡ list_all (λ r. (near && not (is_near new.now r))
        || nat_le (weight_with new.now rows.now r.serial) 4096) rows.now }
{
    rows.iter().all(|row| stays_light(rows, new, row, near))
}

/// The same for the weights.
fn are_light(rows: &[Row], new: &NewItem, near: bool) -> bool
    requires rising { RowsRise rows.now }
    requires near { IsTrue near → IsNear new.now rows.now }
    ensures { result ≡ list_all (λ r. nat_le (weight_with new.now rows.now r.serial) 4096) rows.now }
{
    all_light(rows, new, near)
}

/// Whether the rows have more items than this, all together.
fn has_more_items(rows: &[Row], most: usize) -> bool
    ensures { result ≡ nat_lt most (item_count rows.now) }
{
    let mut left = most;
    for row in rows {
        let items = row.items.as_slice().len();
        if left < items {
            return true;
        }
        left -= items;
    }
    false
}

/// Why an item is refused, where there would then be so many rows. Where no row shows those
/// that show the parent, and none is too deep or too heavy yet, only the near ones are looked at.
#[tactic(auto, unfolding(mix_shape::specs::NewItems::late_cause_with))]
pub fn late_cause(rows: &[Row], new: &NewItem, count: usize, near: bool) -> Option<GraphFault>
    requires rising { RowsRise rows.now }
    requires near { IsTrue near → IsNear new.now rows.now }
    ensures { result ≡ late_cause_with new.now rows.now count }
{
    if !are_shallow(rows, new, near) {
        return Some(GraphFault::Depth);
    }
    if count > 512 {
        return Some(GraphFault::TooMany { limit: 512 });
    }
    if has_more_items(rows, 2047) {
        return Some(GraphFault::TooMany { limit: 2048 });
    }
    if !are_light(rows, new, near) {
        return Some(GraphFault::TooMany { limit: 4096 });
    }
    None
}
