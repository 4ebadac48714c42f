//! The outside as a program sees it: files to read, a sink to write on, and a gate before each visit to shared
//! state. Beside each trait stand forms of it in memory, for tests, and the adapters over real files and standard
//! output.
#![tactic(auto)]

mod bytes;
mod failed;
mod files;
mod gate;
mod host;
mod memory_files;
mod memory_sink;
mod one_text;
mod sink;
mod whole;

pub use bytes::Bytes;
pub use failed::{Failed, ReadAllError};
pub use files::Files;
pub use gate::{Gate, Open};
pub use host::{HostFiles, HostOutput};
pub use memory_files::MemoryFiles;
pub use memory_sink::MemorySink;
pub use one_text::OneText;
pub use sink::Sink;
pub use whole::{read_all, write_all};
