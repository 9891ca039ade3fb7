//! A stack on another head.
ghost use Rattle.std.specs.Prelude.{◌≡◌, ℕ, ◌++◌, ◌<◌, ◌≤◌, ◌*◌, ◌^◌, length, map, IfOk, OnOk, IsTrue};
ghost use Rattle.std.specs.Arc.{arc_value};
ghost use Rattle.std.specs.Int.{w32};
ghost use Rattle.byte_fields.specs.Bytes.{Id as ModelId, is_bytes, sized};
ghost use Rattle.changeset_model.specs.Changeset.{spelling};
ghost use Rattle.history_model.specs.Pushrebase.{on_parent, rewrite};
ghost use Rattle.bonsai.specs.Encodings.{encodings};
ghost use Rattle.bonsai.specs.Making.{KeepsOnParent, KeepOnParents};

use bonsai::Commit;
use object_id::Id;
use std::alloc::{AllocError, Global};
use std::sync::Arc;

/// The stack on this head: the first changeset's parent is the head, each later one's is the new one before it, one of
/// the second version is dated at the moment, and all else is kept. Each is encoded and hashed once, and it fails only
/// for want of memory. Copy sources must name the one parent that each then has.
pub fn rebase(
    alloc: Global,
    stack: &[Arc<Commit>],
    head: Id,
    moment: u64,
) -> Result<Vec<Commit>, AllocError>
    requires { KeepOnParents (map arc_value stack.now) }
    ensures { IfOk result (λ commits. commits.items ≡ rewrite (map arc_value stack.now) head moment) }
{
    let mut commits = Vec::with_capacity(alloc, stack.len())?;
    let mut parent = head;
    'stack: for commit in stack {
        let rebased = Commit::of(
            alloc,
            commit.changeset().with_parent(alloc, parent, moment)?,
        )?;
        parent = rebased.id();
        commits.push(rebased)?;
    }
    Ok(commits)
}

/// The same, with the encodings put behind other bytes, each behind its length of 32 bits. They are hashed where they
/// stand.
pub fn rebase_into(
    alloc: Global,
    out: &mut Vec<u8>,
    stack: &[Arc<Commit>],
    head: Id,
    moment: u64,
) -> Result<Vec<Commit>, AllocError>
    requires { KeepOnParents (map arc_value stack.now) }
    ensures commits { IfOk result (λ commits. commits.items ≡ rewrite (map arc_value stack.now) head moment) }
    ensures bytes { OnOk result (out.new.items ≡ out.old.items ++ encodings (rewrite (map arc_value stack.now) head moment)) }
{
    let mut commits = Vec::with_capacity(alloc, stack.len())?;
    let mut parent = head;
    'stack: for commit in stack {
        let rebased = rebase_one(alloc, out, commit, parent, moment)?;
        parent = rebased.id();
        commits.push(rebased)?;
    }
    Ok(commits)
}

// A changeset on this parent, with its encoding behind its length.
fn rebase_one(
    alloc: Global,
    out: &mut Vec<u8>,
    commit: &Commit,
    parent: Id,
    moment: u64,
) -> Result<Commit, AllocError>
    requires { KeepsOnParent commit.now }
    ensures commit { IfOk result (λ c. c ≡ on_parent parent moment commit.now) }
    ensures bytes { OnOk result (out.new.items ≡ out.old.items ++ sized w32 (spelling (on_parent parent moment commit.now))) }
{
    // Its bytes keep the rule of an id.
    let _bytes = parent.as_bytes();
    let length = commit.length_on_parent() as u32;
    out.extend_from_slice(&length.to_be_bytes())?;
    Commit::encode_behind(out, commit.changeset().with_parent(alloc, parent, moment)?)
}

/// How many bytes `rebase_into` writes, whichever the head and the moment are.
pub fn rebased_length(stack: &[Arc<Commit>]) -> u64
    requires { length stack.now < 2 ^ 16 }
    ensures value { (head : ModelId) (moment : ℕ) → IsTrue (is_bytes 32 head) → result ≡ length (encodings (rewrite (map arc_value stack.now) head moment)) }
    ensures short { result ≤ 2 ^ 28 * length stack.now }
{
    let mut bytes = 0;
    'stack: for commit in stack {
        bytes += 4 + commit.length_on_parent() as u64;
    }
    bytes
}
