//! Reads the pages of a server's log: the JSON of a page (RFC 8259), as the entries that it tells of.
#![tactic(auto)]

mod entry;
pub mod laws;
pub mod page;
pub mod page_fault;
mod parts;

pub use page::read_page;
pub use page_fault::PageFault;
