// The outside as the program sees it: a shelf of named texts that are read, and a sink that bytes are written to.
// All reading and writing goes through these two traits, so that a run can be proved, and tried, over memory.
#![tactic(auto)]

mod asked;
mod calls;
mod file_shelf;
mod memory_shelf;
mod memory_sink;
mod shelf;
mod sink;
mod stream_sink;
mod transfer;

pub use file_shelf::FileShelf;
pub use memory_shelf::MemoryShelf;
pub use memory_sink::MemorySink;
pub use shelf::{Failed, Shelf};
pub use sink::Sink;
pub use stream_sink::StreamSink;
pub use transfer::{ReadEnd, read_all, write_all};
