//! The edge of the trusted chip: where files come from and where released bytes and reports go.
//! Code above is generic over `Folder` and `Sink`, and is proved once for folders and sinks in memory
//! and of the host.
#![tactic(auto)]

mod folder;
mod host_folder;
mod host_sink;
mod mem_folder;
mod mem_sink;
mod never_fails;
mod sink;

pub use folder::{Folder, FolderError};
pub use host_folder::HostFolder;
pub use host_sink::HostSink;
pub use mem_folder::MemFolder;
pub use mem_sink::MemSink;
pub use never_fails::NeverFails;
pub use sink::{Sink, SinkFault};
