//! Paths of a repository and names of bookmarks: texts that keep their rules from the moment they are parsed, compared
//! where they lie.
#![tactic(auto)]

pub mod book_name;
pub mod element;
mod known;
pub mod path;
pub mod path_fault;
mod path_text;

pub use book_name::{BookName, LONGEST_NAME, NameFault};
pub use element::is_element;
pub use known::{has_elements, path_of};
pub use path::RepoPath;
pub use path_fault::PathFault;
pub use path_text::LONGEST_PATH;
