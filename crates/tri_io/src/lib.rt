//! Bytes from outside and to the outside: sources and sinks whose failures are counted.
#![tactic(auto)]

mod front;
mod memory_sink;
mod memory_source;
mod piece;
mod reader_source;
mod reading;
mod sink;
mod source;
mod standard;
mod sure_source;
mod writer_sink;
mod writing;

pub use memory_sink::MemorySink;
pub use memory_source::MemorySource;
pub use reader_source::ReaderSource;
pub use reading::{ReadAll, read_all};
pub use sink::{Sink, SinkFailed};
pub use source::{Source, SourceFailed};
pub use standard::{StdSink, StdSource};
pub use sure_source::SureSource;
pub use writer_sink::WriterSink;
pub use writing::write_all;

#[cfg(test)]
mod tests;
