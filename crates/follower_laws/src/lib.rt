//! Laws of following a server: an honest server's log is followed to its end, and what is stored then is a front of what the server has stored.
//! What it shows of an id is then what that server shows.
#![tactic(auto)]

pub mod again_laws;
pub mod following_laws;
pub mod reading_laws;
pub mod text_laws;
