//! A disk: bytes that are read, written, cut and synced, and what a crash may leave of them.
#![tactic(auto)]

mod call_plan;
mod calls;
mod disk;
mod event_log;
mod file;
mod file_calls;
mod file_event;
mod file_runs;
mod history;
mod host_file;
mod memory;
mod memory_file;
mod recorded_file;
mod seen;
mod steady;
mod tally;
mod tear;

pub use call_plan::{CallLuck, CallPlan};
pub use calls::{DiskCall, MadeCall, Tear};
pub use disk::{Disk, DiskError};
pub use event_log::EventLog;
pub use file::FileDisk;
pub use file_calls::FileCalls;
pub use file_event::FileEvent;
pub use history::History;
pub use host_file::{HostFile, open_file_disk, open_host_file};
pub use memory::MemDisk;
pub use memory_file::MemoryFile;
pub use recorded_file::{RecordedFile, is_honest_record};
pub use seen::Seen;
pub use steady::SteadyDisk;
pub use tally::Tally;
