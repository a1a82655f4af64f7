//! The data storage of a room: values under keys, and the operations that change them.
#![tactic(auto)]

mod apply;
mod bytes;
mod fault;
mod growth;
mod keys;
mod lists;
mod numbers;
mod objects;
mod operate;
mod refusal;
mod run;
mod size;
mod store;

pub use apply::{Changed, is_private};
pub use growth::StoreGrowth;
pub use objects::set_member;
pub use refusal::StoreRefusal;
pub use store::Store;
