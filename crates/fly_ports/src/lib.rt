//! The traits of the outside: files, sinks, processes, a clock and a gate, with implementations in
//! memory and adapters over the real things.
#![tactic(auto)]

mod clock;
mod faults;
mod files;
mod gate;
mod list_clock;
mod memory_files;
mod memory_sink;
mod os_clock;
mod os_spawner;
mod room;
mod sink;
mod spawner;
mod system;
mod table_spawner;

pub use clock::Clock;
pub use faults::{ReadFault, SpawnFault, WriteFault};
pub use files::Files;
pub use gate::{Gate, Hand, OpenGate, Point};
pub use list_clock::ListClock;
pub use memory_files::{MemFile, MemFiles};
pub use memory_sink::MemSink;
pub use os_clock::OsClock;
pub use os_spawner::OsSpawner;
pub use sink::Sink;
pub use spawner::{Ended, MAX_OUTPUT, Run, Spawner};
pub use system::{OsFiles, OsSink};
pub use table_spawner::TableSpawner;
