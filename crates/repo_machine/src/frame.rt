//! The record of an entry, as it is appended.
ghost use Rattle.std.specs.Prelude.{◌≡◌, ◌≤◌, ◌+◌, ◌++◌, List, ℕ, Some, length, take, drop};
ghost use Rattle.std.specs.Int.{w32, to_be_bytes};
ghost use Rattle.history_model.specs.Journal.{framed, wrapped};

use repo_path::BookName;
use std::marker::Model;

// The bytes of a length before a payload.
const LENGTH: usize = 4;

/// The end of some bytes, from a place on. What stands before it isn't appended.
#[derive(Drop)]
pub(crate) struct Frame {
    bytes: Vec<u8>,
    start: usize,
}

impl Model for Frame {
    ghost use Rattle.std.specs.Prelude.{◌≤◌, ℕ, List, length, drop};
    ghost use Rattle.std.specs.Coded.{coded_ℕ, coded_list};

    ghost Value = { List ℕ };

    ghost coded = { coded_list coded_ℕ };

    ghost view = { λ f. drop f.start f.bytes.items };

    ghost invariant = { λ f. f.start ≤ length f.bytes.items };
}

impl Frame {
    /// All of these bytes.
    pub(crate) fn whole(bytes: Vec<u8>) -> Frame
        ensures { result ≡ bytes.items }
    {
        Frame { bytes, start: 0 }
    }

    /// The frame of a payload of this length, of the one that tells this caller before it. It takes no memory: the length is
    /// written over the end of what tells the caller.
    pub(crate) fn untold(mut bytes: Vec<u8>, caller: &BookName, count: u32) -> Frame
        requires { length caller.now + 6 ≤ length bytes.items }
        ensures { (payload : List ℕ) → bytes.items ≡ framed (wrapped (Some caller.now) payload) → count ≡ length payload → result ≡ framed payload }
    {
        // Before the name stand the length of the payload, a mark, and the length of the name.
        let start = 2 + caller.as_str().len();
        put_length(&mut bytes, start, count);
        Frame { bytes, start }
    }

    /// How many bytes it has.
    pub(crate) fn len(&self) -> usize
        ensures { result ≡ length self.now }
    {
        self.bytes.len() - self.start
    }

    /// The bytes alone. It takes no memory.
    pub(crate) fn into_bytes(self) -> Vec<u8>
        ensures { result.items ≡ self }
    {
        let count = self.len();
        let Frame { mut bytes, start } = self;
        if start == 0 {
            return bytes;
        }
        bytes.rotate_left(start);
        bytes.truncate(count);
        bytes
    }

    /// The bytes.
    pub(crate) fn as_slice(&self) -> &[u8]
        ensures { result.now ≡ self.now }
    {
        &self.bytes[self.start..]
    }
}

// Writes a length over what stands at a place.
fn put_length(bytes: &mut Vec<u8>, at: usize, count: u32)
    requires { at + LENGTH ≤ length bytes.old.items }
    ensures { bytes.new.items ≡ take at bytes.old.items ++ to_be_bytes w32 count ++ drop (at + LENGTH) bytes.old.items }
{
    bytes[at..at + LENGTH].copy_from_slice(&count.to_be_bytes());
}
