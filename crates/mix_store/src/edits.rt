//! Edits that take no memory and can't be refused.
ghost use Rattle.std.specs.Prelude.{◌≡◌};
ghost use Rattle.mix_store.specs.Edited.{edited_by};

use crate::row_edit::RowEdit;
use crate::sources::Sources;
use mix_base::Serial;
use std::alloc::Global;

/// What is changed of the sources.
#[derive(Drop)]
pub enum Edit {
    /// The row of this serial is edited.
    Row(Serial, RowEdit),
    /// A source leaves the registry, the channels and every item.
    Remove(Serial),
    /// The preview refers to something else.
    Preview(Option<Serial>),
    /// A hold ends.
    Release(u64),
    /// A watch ends.
    Unwatch(u64),
    /// A frame in flight ends.
    End(u64),
}

impl Sources {
    /// Does an edit. It takes no memory.
    pub fn edit(&mut self, alloc: Global, edit: Edit)
        ensures { self.new ≡ edited_by edit self.old }
    {
        match edit {
            Edit::Row(serial, edit) => self.edit_row(alloc, serial, edit),
            Edit::Remove(serial) => self.remove_source(alloc, serial),
            Edit::Preview(to) => self.set_preview(to),
            Edit::Release(id) => self.release_hold(id),
            Edit::Unwatch(id) => self.drop_watch(id),
            Edit::End(number) => self.release_frame(number),
        }
    }
}
