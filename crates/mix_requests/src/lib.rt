//! The form of a request: what it reads and finds, what it edits and tells, and against which line.
#![tactic(auto)]

mod caller;
mod events;
pub mod laws;
mod making;
mod named;
mod new_item;
mod outcome;
mod program;
mod reading;
mod refused;
mod request_type;
mod seeking;

pub use caller::{Caller, Mode};
pub use events::Events;
pub use making::{make_input, make_scene};
pub use named::{name_at, name_of, with_named, with_uuid};
pub use new_item::{item_count, new_place, next_item};
pub use outcome::{done, type_text};
pub use program::{change_to, tell_change};
pub use reading::{needed_fields, new_name, sought_name};
pub use refused::Refused;
pub use request_type::{InputRequest, ItemRequest, OutputRequest, RequestType, SceneRequest};
pub use seeking::scene_sought;
