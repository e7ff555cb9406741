//! The edge to the outside world: where bytes come from and go to, how the time is read, and the gate before each
//! step of a client. Each trait says what a caller may rely on; the forms in memory meet it exactly, and those over
//! std are the trusted edge.
#![tactic(auto)]

mod clocks;
mod collecting;
mod emitting;
mod faults;
mod gates;
mod memory_sinks;
mod memory_sources;
mod sinks;
mod sources;
mod standard_clocks;
mod standard_sinks;
mod standard_sources;

pub use clocks::{Clock, Frozen, LAST_MOMENT};
pub use collecting::Collector;
pub use emitting::Emitter;
pub use faults::{CollectFault, Failed, WriteFault};
pub use gates::{Gate, OpenGate};
pub use memory_sinks::MemSink;
pub use memory_sources::MemSource;
pub use sinks::Sink;
pub use sources::Source;
pub use standard_clocks::MillisClock;
pub use standard_sinks::StdSink;
pub use standard_sources::StdSource;
