//! What a session reads from and writes to: a source, a sink, a clock, and a door that gives links, by what they mean and how often they
//! failed; and where workers rest.
#![tactic(auto)]

mod both;
mod clock;
mod door;
mod list_door;
mod logged;
mod nudge;
mod sink;
mod source;
mod standard;
mod streams;
mod system_clock;
mod system_streams;
mod text_streams;
mod traits;

pub use both::Both;
pub use clock::ListClock;
pub use door::{Door, DoorFault};
pub use list_door::ListDoor;
pub use logged::remember;
pub use nudge::{Nudge, ParkNudge, PlainNudge};
pub use sink::TextSink;
pub use source::TextSource;
pub use standard::{StandardInput, StandardOutput};
use std::alloc::AllocError;
pub use streams::{InputStream, OutputStream};
pub use system_clock::SystemClock;
pub use system_streams::{SystemInput, SystemOutput};
pub use text_streams::{TextInput, TextOutput};
pub use traits::{Clock, Ends, Sink, SinkFault, Source, SourceFault};

/// There was no memory for it.
pub type NoMemory = AllocError;
