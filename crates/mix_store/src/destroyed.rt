//! The row that is destroyed next.
ghost use Rattle.std.specs.Prelude.{◌≡◌, filter, not, slice_get};
ghost use Rattle.mix_model.specs.Rows.{is_at};
ghost use Rattle.mix_model.specs.Edits.{next_destroyed};

use crate::sources::Sources;
use mix_base::Serial;
use mix_model::Row;

/// Takes out the rows of this serial.
fn take_row(rows: &mut Vec<Row>, serial: Serial)
    ensures { rows.new.items ≡ filter (λ r. not (is_at serial r)) rows.old.items }
{
    rows.retain(|row| row.serial.0 != serial.0);
}

impl Sources {
    /// Takes the first of those that die, and its row.
    pub fn destroy_next(&mut self) -> Option<Serial>
        ensures reply { result ≡ slice_get self.old.dying 0 }
        ensures state { self.new ≡ next_destroyed self.old }
    {
        let Some(serial) = self.dying.as_slice().first().copied() else {
            return None;
        };
        let _ = self.dying.remove(0);
        take_row(&mut self.rows, serial);
        Some(serial)
    }
}
