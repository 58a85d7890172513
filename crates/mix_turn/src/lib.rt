//! A lock that keeps the history of what was done under it.
#![tactic(auto)]

mod attempt;
mod entered;
mod faults;
mod law;
mod pass;
mod plays;
mod roll;
mod start;
mod turn;
mod turned;
mod turnstile;
mod view;

pub use entered::{Entered, PassEntries};
pub use faults::{Busy, SplitFault};
pub use law::Law;
pub use pass::Pass;
pub use roll::Roll;
pub use start::Start;
pub use turn::{Miss, Turn};
pub use turned::Turned;
pub use turnstile::Turnstile;
pub use view::{Tally, View};
