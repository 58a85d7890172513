//! Plain data of the mixer, and what holds of it: rows, the state, holders, walks, settling.
#![tactic(auto)]

mod action;
mod ask;
mod body;
mod change;
mod collection;
mod copies;
mod draw;
mod event;
mod fault;
mod item;
mod kind;
pub mod laws;
mod message;
mod notes;
mod picture;
mod place;
mod row;
mod settings;
mod tree;
mod voice;
mod words;
pub mod worked;
pub mod worked_pictures;

pub use action::{Action, Entry};
pub use ask::{Ask, BatchAsk, Done, copy_dones};
pub use body::Body;
pub use change::Change;
pub use collection::{Collection, Line};
pub use draw::{Draw, Shot, Step};
pub use event::Event;
pub use fault::GraphFault;
pub use item::{Item, ItemSpec};
pub use kind::{Blend, Kind};
pub use message::Message;
use mix_base::{ItemId, ListOf};
pub use notes::{Note, Notes};
pub use picture::{Block, Picture};
pub use place::{Place, Sound};
pub use row::{Row, RowView};
pub use settings::Settings;
pub use tree::Tree;
pub use voice::{Voice, copy_voices};
pub use words::{RecordWord, Transition};

/// Items of a scene or group, from bottom to top.
pub type ItemList = ListOf<Item>;
/// Holds or watches with their connections, by rising id.
pub type NoteList = ListOf<Note>;
/// Lines of a collection in their order.
pub type LineList = ListOf<Line>;
/// Samples of the tracks 1 to 6 one after the other, each with its 1024 frames, left and then right.
pub type SampleList = ListOf<i32>;
/// What a draw goes through, from the outside in.
pub type StepList = ListOf<Step>;
/// Draws in their order.
pub type DrawList = ListOf<Draw>;
/// What is heard, in any order.
pub type VoiceList = ListOf<Voice>;
/// Requests of a batch in their order.
pub type AskList = ListOf<Ask>;
/// Results of a batch in the order of its requests.
pub type DoneList = ListOf<Done>;
/// Ids of items, from bottom to top.
pub type IdList = ListOf<ItemId>;
