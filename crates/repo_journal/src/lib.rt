//! The journal of a repository: one file of records, each with a gate that is opened once the record is on the disk.
//! So a crash at any moment leaves the records before an append, or those and all new ones. Records may wait in memory, and
//! are then sealed together.
#![tactic(auto)]

mod block;
mod create;
pub mod cut;
pub mod fault;
pub mod header;
pub mod journal;
pub mod laws;
pub mod left;
pub mod opening;
pub mod pending;
mod records;
pub mod scanner;
mod seal;
pub mod span;
pub mod step;

pub use create::init;
pub use cut::Cut;
pub use fault::{AppendFault, DiskFault, InitFault, ScanFault};
pub use header::{EMPTY_SIZE, FIRST_GATE, LEAST_CAPACITY, MARK, MOST_CAPACITY, SECOND_MARK};
pub use journal::Journal;
pub use left::{At, Left};
pub use opening::Opening;
pub use pending::{KEPT_ROOM, Pending};
pub use scanner::Scanner;
pub use span::Span;
pub use step::Step;
