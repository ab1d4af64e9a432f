//! Where bytes come from and where they go.
//!
//! A program reads through a `Source`, writes through a `Sink` and lets tests hold its workers at a
//! `Gate`. A source or a sink is a stream of std's, or stands in memory, where contracts see each
//! byte.
#![tactic(auto)]

mod cross_gate;
mod hold_gate;
mod meet_gate;
mod memory_sink;
mod memory_source;
mod stream;
mod traits;
mod transfer;
mod waiting;

pub use cross_gate::CrossGate;
pub use hold_gate::HoldGate;
pub use meet_gate::MeetGate;
pub use memory_sink::MemorySink;
pub use memory_source::MemorySource;
pub use stream::{StreamSink, StreamSource};
pub use traits::{Failed, Gate, NoGate, Sink, Source};
pub use transfer::{ReadError, ShortWrite, read_up_to, write_all};
