//! Where files are kept and lines are printed, and how a failed call is told from a wrong answer.
#![tactic(auto)]

mod file;
mod file_store;
mod mem_sink;
mod mem_store;
mod schedule;
mod sink;
mod store;
mod stream_sink;
mod sure_sink;
mod sure_store;
mod whole_file;

pub use file::MemFile;
pub use file_store::FileStore;
pub use mem_sink::MemSink;
pub use mem_store::MemStore;
pub use sink::{PutFail, Sink};
pub use store::{ReadFail, Store, WriteFail};
pub use stream_sink::StreamSink;
pub use sure_sink::SureSink;
pub use sure_store::SureStore;
