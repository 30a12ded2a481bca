//! The outside as traits: where files come from, where the report goes, and what is called before
//! each line of a script. With fakes in memory, and adapters over real files and standard output.
#![tactic(auto)]

mod files;
mod gate;
mod mem_shelf;
mod mem_sink;
mod shelf;
mod sink;
mod stdout;
mod steady;

pub use files::FileShelf;
pub use gate::{Gate, OpenGate};
pub use mem_shelf::MemShelf;
pub use mem_sink::MemSink;
pub use shelf::{Shelf, ShelfError};
pub use sink::{Sink, SinkFailed, put_all};
pub use stdout::StdSink;
pub use steady::{SteadyShelf, SteadySink};

#[cfg(test)]
mod tests;
