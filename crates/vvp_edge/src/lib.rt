//! The outside: where bytes come from and where they go. A sink takes bytes, and a store has files
//! by their names. Each counts its failed calls, and tells what it holds where it can, so that the
//! layers above say exactly which bytes they read and wrote. `MemSink` and `MemStore` stand in
//! memory and fail where they are told to. `HonestSink` and `HonestStore` never fail. `OutSink` and
//! `DirStore` reach the system, and tell nothing of its bytes.
#![tactic(auto)]

mod calls;
mod dir_store;
mod honest;
mod mem_files;
mod mem_sink;
mod mem_store;
mod out_sink;
mod sink;
mod store;
#[cfg(test)]
mod tests;

pub use calls::CallKind;
pub use dir_store::DirStore;
pub use honest::{HonestSink, HonestStore};
pub use mem_sink::MemSink;
pub use mem_store::MemStore;
pub use out_sink::OutSink;
pub use sink::{Failed, Sink, send_all};
pub use store::{MOST_SOURCE, ReadFault, Store, append_all, read_source};
