//! The texts that are said to connections: messages of obs-websocket 5.
#![tactic(auto)]

mod done;
mod event;
mod hello;
mod inputs;
mod items;
mod message;
mod others;
mod reply;
mod said;
mod scenes;
mod status;
mod told_event;
mod twin;
mod uuids;

pub use event::intent;
pub use message::said_text;
use mix_base::ListOf;
pub use reply::{Answer, Reply};
pub use said::{Login, Said};
pub use status::status_name;
pub use told_event::ToldEvent;
pub use twin::{Twin, twin_of};

/// What a connection is told, in order.
pub type SaidList = ListOf<Said>;
/// Events in order, each twice.
pub type TwinList = ListOf<Twin>;
