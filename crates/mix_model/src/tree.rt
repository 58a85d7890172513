//! Sources and their items, as somebody who draws or mixes looks at them.
ghost use Rattle.std.specs.Prelude.{◌≡◌, ℕ, List, IsTrue, IfSome, slice_get};
ghost use Rattle.mix_model.specs.declared.row.Row.{Row};
ghost use Rattle.mix_model.specs.Views.{IsView, IsValidView};
ghost use Rattle.mix_model.specs.Lookups.{find_row, has_row, items_in};
ghost use Rattle.mix_model.specs.Values.{is_place};

use crate::{Item, RowView};
use mix_base::Serial;

/// Sources and their items, as somebody who draws or mixes looks at them.
pub trait Tree {
    /// The sources.
    ghost rows: { Self → List Row };

    fn row(&self, serial: Serial) -> RowView<'_>
        requires known { IsTrue (has_row (rows self.now) serial) }
        ensures value { IfSome (find_row (rows self.now) serial) (λ row. IsView row result) }
        ensures valid { IsValidView result };

    /// The item at an index from the bottom, counted from 0; none past the last.
    fn item_at(&self, parent: Serial, index: u32) -> Option<Item>
        ensures value { result ≡ slice_get (items_in (rows self.now) parent) index }
        ensures place { IfSome result (λ item. IsTrue (is_place item.place)) }
        ensures child { IfSome result (λ item. IsTrue (has_row (rows self.now) item.child)) };
}
