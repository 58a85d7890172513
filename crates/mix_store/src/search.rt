//! Searches in lists of serials and of rows.
ghost use Rattle.std.specs.Prelude.{◌≡◌, ◌==◌, ◌≤◌, ◌<◌, ◌+◌, find, length, option_copied, option_to_list, MatchOption};
ghost use Rattle.std.specs.Prelude.{None, IfSome, IfNone};
ghost use Rattle.std.specs.List.{HoldsAt};
ghost use Rattle.mix_model.specs.Sets.{has, is_next};
ghost use Rattle.std.specs.Prelude.{IsTrue};
ghost use Rattle.mix_model.specs.Rows.{is_at, has_items, serials_of};
ghost use Rattle.mix_store.specs.Asked.{nearer};
ghost use Rattle.mix_model.specs.Ranks.{rank_by, weight_by};
ghost use Rattle.mix_model.specs.Walks.{leads};
ghost use Rattle.std.specs.Prelude.{◌&&◌};
ghost use Rattle.mix_store.specs.Searched.{RowsRise, next_in, flagged_also, chained_in};
ghost use Rattle.mix_shape.specs.NewItems.{inside_with};

use mix_base::Serial;
use mix_model::{Kind, Row};
use mix_shape::NewItem;

/// Whether the serial is in the list.
pub fn has(serials: &[Serial], serial: Serial) -> bool
    ensures { result ≡ has serial serials.now }
{
    serials.iter().any(|s| s.0 == serial.0)
}

/// Whether the option is this serial.
pub fn is_some_of(option: Option<Serial>, serial: Serial) -> bool
    ensures { result ≡ has serial (option_to_list option) }
{
    match option {
        Some(s) => s.0 == serial.0,
        None => false,
    }
}

/// Where the row of this serial is. Rows are by rising serial, so each look halves what is left.
pub fn place_of(rows: &[Row], serial: Serial) -> Option<usize>
    requires { RowsRise rows.now }
    ensures within { IfSome result (λ at. at < length rows.now) }
    ensures at { IfSome result (λ at. HoldsAt (λ r. r.serial ≡ serial) rows.now at) }
    ensures none { IfNone result (find (is_at serial) rows.now ≡ None) }
{
    match rows.binary_search_by_key(&serial.0, |row| row.serial.0) {
        Ok(at) => Some(at),
        Err(_) => None,
    }
}

/// The row of this serial.
pub fn row_at(rows: &[Row], serial: Serial) -> Option<&Row>
    requires { RowsRise rows.now }
    ensures { option_copied result ≡ find (is_at serial) rows.now }
{
    match place_of(rows, serial) {
        Some(at) => Some(&rows[at]),
        None => None,
    }
}

/// Puts on the flag of the row of this serial.
pub fn flag_row(rows: &[Row], serial: Serial, flags: &mut [bool])
    requires each { length flags.old ≡ length rows.now }
    requires rising { RowsRise rows.now }
    ensures { flags.new ≡ flagged_also (λ x. serial == x) rows.now flags.old }
{
    let Some(at) = place_of(rows, serial) else {
        return;
    };
    flags[at] = true;
}

/// Puts on the flags of the rows to which a walk of at most so many steps leads.
pub fn flag_walked(rows: &[Row], rounds: u32, from: Serial, flags: &mut [bool])
    requires each { length flags.old ≡ length rows.now }
    requires rising { RowsRise rows.now }
    ensures { flags.new ≡ flagged_also (leads (next_in rows.now) rounds from) rows.now flags.old }
{
    flag_row(rows, from, flags);
    if rounds == 0 {
        return;
    }
    let Some(row) = row_at(rows, from) else {
        return;
    };
    for item in row.items.as_slice() {
        if item.enabled {
            flag_walked(rows, rounds - 1, item.child, flags);
        }
    }
}

/// The rank of a row with an item more, or the number of rounds where it is no lower.
pub fn rank_from(rows: &[Row], new: &NewItem, rounds: u32, of: Serial) -> u32
    requires { RowsRise rows.now }
    ensures value { result ≡ rank_by (inside_with new.now rows.now) rounds of }
    ensures bound { result ≤ rounds }
{
    if rounds == 0 {
        return 0;
    }
    let Some(row) = row_at(rows, of) else {
        return if is_new_group(new, of) { 1 } else { 0 };
    };
    if !has_items(row.kind) {
        return 0;
    }
    let mut most = 0;
    if row.serial.0 == new.parent.0 {
        most = rank_from(rows, new, rounds - 1, new.child);
    }
    for item in row.items.as_slice() {
        let rank = rank_from(rows, new, rounds - 1, item.child);
        if most < rank {
            most = rank;
        }
    }
    most + 1
}

/// What is left of an allowance after the weight of a row with an item more, where it is no lower.
pub fn weighed(rows: &[Row], new: &NewItem, rounds: u32, of: Serial, most: u32) -> Option<u32>
    requires { RowsRise rows.now }
    ensures { MatchOption result (most < weight_by (inside_with new.now rows.now) rounds of)
        (λ left. left + weight_by (inside_with new.now rows.now) rounds of ≡ most) }
{
    if rounds == 0 {
        return Some(most);
    }
    if most == 0 {
        return None;
    }
    let mut left = most - 1;
    let Some(row) = row_at(rows, of) else {
        return Some(left);
    };
    if !has_items(row.kind) {
        return Some(left);
    }
    if row.serial.0 == new.parent.0 {
        match weighed(rows, new, rounds - 1, new.child, left) {
            Some(rest) => left = rest,
            None => return None,
        }
    }
    for item in row.items.as_slice() {
        match weighed(rows, new, rounds - 1, item.child, left) {
            Some(rest) => left = rest,
            None => return None,
        }
    }
    Some(left)
}

/// Whether this is the serial of the new group.
fn is_new_group(new: &NewItem, serial: Serial) -> bool
    ensures { result ≡ (new.now.group && (new.now.child == serial)) }
{
    new.group && new.child.0 == serial.0
}

/// Whether this kind of source has items.
pub fn has_items(kind: Kind) -> bool
    ensures { result ≡ has_items kind }
{
    matches!(kind, Kind::Scene | Kind::Group)
}

/// Whether a walk of at most so many steps leads from one row to the other.
pub fn leads_to(rows: &[Row], rounds: u32, from: Serial, to: Serial) -> bool
    requires { RowsRise rows.now }
    ensures { result ≡ leads (next_in rows.now) rounds from to }
{
    if from.0 == to.0 {
        return true;
    }
    if rounds == 0 {
        return false;
    }
    let Some(row) = row_at(rows, from) else {
        return false;
    };
    for item in row.items.as_slice() {
        if item.enabled && leads_to(rows, rounds - 1, item.child, to) {
            return true;
        }
    }
    false
}

/// Whether a chain of at most so many items leads from one row to the other.
pub fn chains_to(rows: &[Row], rounds: u32, from: Serial, to: Serial) -> bool
    requires { RowsRise rows.now }
    ensures { result ≡ leads (chained_in rows.now) rounds from to }
{
    if from.0 == to.0 {
        return true;
    }
    if rounds == 0 {
        return false;
    }
    let Some(row) = row_at(rows, from) else {
        return false;
    };
    for item in row.items.as_slice() {
        if chains_to(rows, rounds - 1, item.child, to) {
            return true;
        }
    }
    false
}

/// The nearer of what was found and of this serial, where it is above the first.
fn nearer(above: Serial, found: Option<Serial>, here: Serial) -> Option<Serial>
    ensures { result ≡ nearer above found here }
{
    match found {
        None => { if here.0 <= above.0 { None } else { Some(here) } }
        Some(next) => {
            if here.0 <= above.0 || next.0 <= here.0 {
                Some(next)
            } else {
                Some(here)
            }
        }
    }
}

/// The least serial of a row above this one.
pub fn serial_after(rows: &[Row], serial: Serial) -> Option<Serial>
    ensures { IsTrue (is_next serial (serials_of rows.now) result) }
{
    let mut next: Option<Serial> = None;
    for row in rows {
        next = nearer(serial, next, row.serial);
    }
    next
}
