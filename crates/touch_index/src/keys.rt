//! Keys of paths.
ghost use Rattle.std.specs.Prelude.{◌≡◌, ◌<◌, true, length, IfOk};
ghost use Rattle.changeset_model.specs.Path.{is_path};
ghost use Rattle.touch_index.specs.Keys.{mixed, keys};

use repo_path::RepoPath;
use std::alloc::{AllocError, Global};

// The offset and the prime of the hash function FNV-1a.
pub(crate) const ROOT: u64 = 0xCBF2_9CE4_8422_2325;

pub(crate) const PRIME: u64 = 0x0000_0100_0000_01B3;

/// The most keys of a path, so that one of many elements takes no more memory than others.
pub(crate) const MOST_KEYS: usize = 16;

/// The keys of the paths that lie above one and of itself, the highest first. One of more than 16 elements has the keys of its
/// first 16.
pub(crate) fn keys_of(alloc: Global, path: &RepoPath) -> Result<Vec<u64>, AllocError>
    ensures keys { IfOk result (λ found. found.items ≡ keys path.now) }
    ensures some { 0 < length (keys path.now) }
    ensures path { is_path path.now ≡ true }
{
    let mut found = Vec::new(alloc);
    let mut key = mix(ROOT, b'/');
    for byte in path.as_str().as_bytes() {
        if *byte == b'/' {
            found.push(key)?;
            if found.len() == MOST_KEYS {
                return Ok(found);
            }
        }
        key = mix(key, *byte);
    }
    found.push(key)?;
    Ok(found)
}

// The key of one byte more.
fn mix(key: u64, byte: u8) -> u64
    ensures { result ≡ mixed key byte }
{
    (key ^ byte as u64).wrapping_mul(PRIME)
}
