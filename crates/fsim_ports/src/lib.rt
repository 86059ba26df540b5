//! The outside of the program: files that are read, a sink that is written, a source that is
//! read, and gates that threads pass.
#![tactic(auto)]

mod host;
mod host_source;
mod load;
mod memory_files;
mod memory_sink;
mod memory_source;
mod outside;
mod plan;
mod source;
mod sure;
mod table;
#[cfg(test)]
mod tests;
mod whole;

pub use host::{HostFiles, HostSink};
pub use host_source::HostSource;
pub use load::{LoadFault, load_file};
pub use memory_files::MemoryFiles;
pub use memory_sink::MemorySink;
pub use memory_source::MemorySource;
pub use outside::{Failed, Files, Gate, Part, QuietGate, Sink};
pub use source::{Due, Heard, Source};
pub use sure::{SureFiles, SureSink};
pub use whole::put_all;
