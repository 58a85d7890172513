//! The kinds of input: what their settings may be, and what they show and say.
#![tactic(auto)]

mod checking;
mod defaults;
mod fault;
mod heard;
mod keys;
pub mod laws;
mod naming;
mod raster;
mod shown;
mod written;

pub use checking::check_settings;
pub use fault::{BadSetting, SettingFault};
pub use heard::sample;
pub use naming::kind_of;
pub use shown::pixel;
pub use written::settings_json;
