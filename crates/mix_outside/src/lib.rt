//! The outside as the mixer sees it: what bytes come from and go to, the links of connections and the
//! doors they come through, what work goes at, each as a trait with a form in memory.
#![tactic(auto)]

mod buffered;
mod calls;
mod clock_pace;
mod count_pace;
mod device_sink;
mod device_source;
mod devices;
mod door;
mod file_sink;
mod file_source;
mod gate;
mod given;
mod got;
mod lines;
mod link;
mod mem_door;
mod mem_link;
mod mem_sink;
mod mem_source;
mod out_sink;
mod pace;
mod read_ahead;
mod sink;
mod source;

pub use buffered::Buffered;
pub use clock_pace::ClockPace;
pub use count_pace::CountPace;
pub use device_sink::DeviceSink;
pub use device_source::DeviceSource;
pub use devices::{InDevice, OutDevice};
pub use door::{Came, Door};
pub use file_sink::FileSink;
pub use file_source::FileSource;
pub use gate::{Gate, OpenGate, Point};
pub use given::{LinkItem, LinkItems};
pub use got::{Got, Sent};
pub use lines::Met;
pub use link::Link;
pub use mem_door::{Comer, ComerList, MemDoor};
pub use mem_link::MemLink;
pub use mem_sink::MemSink;
pub use mem_source::MemSource;
pub use out_sink::OutSink;
pub use pace::{Beat, Pace};
pub use read_ahead::ReadAhead;
pub use sink::{Put, Sink};
pub use source::{Source, Take};
