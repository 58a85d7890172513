//! A graph, as somebody who draws or mixes looks at it.
use crate::Graph;
use mix_base::Serial;
use mix_model::{Item, RowView, Tree};

impl Tree for Graph {
    ghost rows = { λ g. g.present.rows };

    fn row(&self, serial: Serial) -> RowView<'_> {
        let Some(view) = self.sources.view(serial) else {
            unreachable!()
        };
        view
    }

    fn item_at(&self, parent: Serial, index: u32) -> Option<Item> {
        self.sources.item_at(parent, index)
    }
}
