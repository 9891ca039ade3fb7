//! The record of a disk that may keep none.
ghost use Rattle.std.specs.Prelude.{◌≡◌, ◌↔◌, length, IsTrue};
ghost use Rattle.std.specs.Option.{ForSome, option_map, option_map_or};
ghost use Rattle.blob_disk.specs.Log.{bytes_of, call_of, noted, HasRoom};

use crate::record::{Record, Turn};

/// Where a record is kept, it has room for one more turn that writes so many bytes.
pub fn has_room(log: &Option<Record>, bytes: usize) -> bool
    ensures { IsTrue result ↔ ForSome log.now (HasRoom bytes) }
{
    match log {
        Some(log) => log.has_room(bytes),
        None => true,
    }
}

/// One more turn where a record is kept.
pub fn note(log: &mut Option<Record>, turn: Turn, bytes: &[u8])
    requires room { ForSome log.old (HasRoom (length bytes.now)) }
    requires all { bytes_of turn ≡ length bytes.now }
    ensures { log.new ≡ option_map (noted (call_of turn bytes.now) (length bytes.now)) log.old }
{
    if let Some(log) = log {
        log.note(turn, bytes);
    }
}

/// The number of this moment, and 0 where no record is kept.
pub fn moment(log: &Option<Record>) -> u64
    ensures { result ≡ option_map_or (λ l. length l.calls) log.now 0 }
{
    match log {
        Some(log) => log.len() as u64,
        None => 0,
    }
}
