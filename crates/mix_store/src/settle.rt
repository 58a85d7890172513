//! The settling at the end of each call: what begins to die, and what became active.
ghost use Rattle.std.specs.Prelude.{◌≡◌, ◌==◌, ◌≤◌, ◌+◌, ◌++◌, [], length, map, option_copied, vec_capacity};
ghost use Rattle.mix_model.specs.Marks.{marked, settled_by};
ghost use Rattle.mix_model.specs.Settle.{newly_dying};
ghost use Rattle.mix_store.specs.Settling.{since_by, numbered, begins_to_die, flagged, marked_by};
ghost use Rattle.mix_store.specs.Settling.{MarksRise, with_numbers};

use crate::kept::Stood;
use crate::search::has;
use crate::sources::Sources;
use mix_base::Serial;
use mix_model::Row;

fn is_mark_of(mark: &Stood, serial: Serial) -> bool
    ensures { result ≡ (mark.now.serial == serial) }
{
    mark.serial.0 == serial.0
}

/// The mark of this serial.
fn mark_of(marks: &[Stood], serial: Serial) -> Option<&Stood>
    requires { MarksRise marks.now }
    ensures { option_copied result ≡ marked marks.now serial }
{
    match marks.binary_search_by_key(&serial.0, |mark| mark.serial.0) {
        Ok(at) => Some(&marks[at]),
        Err(_) => None,
    }
}

/// The mark of this serial, which is at this place unless rows before it were destroyed.
pub fn mark_near(marks: &[Stood], at: usize, serial: Serial) -> Option<&Stood>
    requires { MarksRise marks.now }
    ensures { option_copied result ≡ marked marks.now serial }
{
    if at < marks.len() {
        let mark = &marks[at];
        if is_mark_of(mark, serial) {
            return Some(mark);
        }
    }
    mark_of(marks, serial)
}

/// The number that the row at this place gets.
fn since_by(marks: &[Stood], clock: u64, at: usize, serial: Serial, active: bool) -> u64
    requires { MarksRise marks.now }
    ensures { result ≡ since_by marks.now clock serial active }
{
    match mark_near(marks, at, serial) {
        Some(mark) => {
            if active && !mark.active {
                clock
            } else {
                mark.since
            }
        }
        None => { if active { clock } else { 0 } }
    }
}

/// Writes the number of each row.
fn write_numbers(rows: &mut Vec<Row>, marks: &[Stood], clock: u64, active: &[bool])
    requires each { length active.now ≡ length rows.old.items }
    requires rising { MarksRise marks.now }
    ensures { rows.new.items ≡ numbered marks.now clock rows.old.items active.now }
{
    for index in 0..rows.len() {
        let row = &mut rows[index];
        row.since = since_by(marks, clock, index, row.serial, active[index]);
    }
}

/// Puts the rows whose flag is on at the end of the dying list.
pub fn push_flagged(rows: &[Row], flags: &[bool], dying: &mut Vec<Serial>)
    requires each { length flags.now ≡ length rows.now }
    requires room { length dying.old.items + length (flagged rows.now flags.now)
        ≤ vec_capacity dying.old }
    ensures items { dying.new.items ≡ dying.old.items ++ flagged rows.now flags.now }
    ensures room { vec_capacity dying.new ≡ vec_capacity dying.old }
{
    for index in 0..flags.len() {
        if flags[index] {
            dying.push_reserved(rows[index].serial);
        }
    }
}

/// The marks of the rows, by the flags of activity and of showing.
pub fn write_marks(rows: &[Row], active: &[bool], showing: &[bool], marks: &mut Vec<Stood>)
    requires active { length active.now ≡ length rows.now }
    requires showing { length showing.now ≡ length rows.now }
    requires room { length rows.now ≤ vec_capacity marks.old }
    ensures items { marks.new.items ≡ marked_by rows.now active.now showing.now }
    ensures room { vec_capacity marks.new ≡ vec_capacity marks.old }
{
    marks.clear();
    for index in 0..rows.len() {
        let row = &rows[index];
        marks.push_reserved(Stood {
            serial: row.serial,
            active: active[index],
            showing: showing[index],
            since: row.since,
        });
    }
}

impl Sources {
    #[tactic(auto, unfolding(crate::specs::Settling::begins_to_die))]
    fn begins_to_die(&self, serial: Serial) -> bool
        ensures { result ≡ begins_to_die self.now serial }
    {
        !self.is_held(serial) && !has(self.dying.as_slice(), serial)
    }

    /// Sets each flag to whether its row begins to die.
    fn flag_unheld(&self, flags: &mut [bool])
        requires { length flags.old ≡ length self.now.rows }
        ensures { flags.new ≡ map (λ r. begins_to_die self.now r.serial) self.now.rows }
    {
        for index in 0..flags.len() {
            flags[index] = self.begins_to_die(self.rows[index].serial);
        }
    }

    /// Writes the number of each row, by what is active.
    fn write_activity(&mut self, marks: &[Stood], flags: &mut [bool])
        requires each { length flags.old ≡ length self.old.rows }
        requires rising { MarksRise marks.now }
        ensures { self.new ≡ with_numbers marks.now self.old }
    {
        self.flag_active(flags);
        write_numbers(&mut self.rows, marks, self.clock, flags);
    }

    /// What stands is settled against the marks of when the action began.
    pub fn settle(&mut self, marks: &[Stood], flags: &mut [bool])
        requires each { length flags.old ≡ length self.old.rows }
        requires rising { MarksRise marks.now }
        ensures { self.new ≡ settled_by marks.now self.old }
    {
        self.flag_unheld(flags);
        push_flagged(self.rows.as_slice(), flags, &mut self.dying);
        self.write_activity(marks, flags);
    }

    /// The same where nothing begins to die.
    #[tactic(auto, using(crate::proofs::SettleLemmas::settled_living))]
    pub fn settle_living(&mut self, marks: &[Stood], flags: &mut [bool])
        requires each { length flags.old ≡ length self.old.rows }
        requires rising { MarksRise marks.now }
        requires living { newly_dying self.old ≡ [] }
        ensures { self.new ≡ settled_by marks.now self.old }
    {
        self.write_activity(marks, flags);
    }
}
