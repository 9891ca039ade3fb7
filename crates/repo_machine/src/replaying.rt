//! Uploads that are read back of a file: each is judged and entered at once. Its record stands in the file, so none is made.
ghost use Rattle.std.specs.Prelude.{◌≡◌, ◌≤◌, ◌+◌, ◌++◌, ◌∷◌, [], true, length, Ok, IfOk, IfErr, OnOk, OnErr};
ghost use Rattle.sha2.specs.Sha256.{sha256};
ghost use Rattle.changeset_model.specs.Changeset.{spelling};
ghost use Rattle.changeset_model.specs.Decoding.{decoded};
ghost use Rattle.history_model.specs.History.{changesets_in};
ghost use Rattle.history_model.specs.Journal as journal;
ghost use Rattle.history_model.specs.Journal.{payload_len};
ghost use Rattle.reply_model.specs.After.{entry_by};
ghost use Rattle.reply_model.specs.Legal.{IsLegal};
ghost use Rattle.reply_model.specs.Reply.{PutContent, PutChangeset, judge};
ghost use Rattle.repo_calls.specs.Refusing.{IsRefusal};
ghost use Rattle.repo_machine.specs.Entering.{CanMake, IsNew, Prevents};
ghost use Rattle.repo_machine.specs.Found.{IsLeft};
ghost use Rattle.repo_machine.specs.Made.{made_of, IsMadeReady};
ghost use Rattle.repo_machine.specs.Replaying.{IsReplayed};

use crate::judged::Made;
use crate::machine::Machine;
use bonsai::{Commit, MOST_CONTENT};
use object_id::Id;
use repo_calls::Refusal;
use repo_events::{FRAME, MOST_PAYLOAD, MOST_STACK};
use repo_path::RepoPath;
use std::alloc::Global;
use std::sync::Arc;

impl Machine {
    /// Judges a content of at most 1,048,576 bytes whose id is known, as in a payload that was decoded, for the seat `who`, and
    /// enters it. It tells whether an entry is made: none is of a content that is known. Nothing is entered where it is
    /// refused, or where memory runs out.
    pub fn replay_content(
        &mut self,
        alloc: Global,
        who: u64,
        id: Id,
        bytes: &[u8],
    ) -> Result<bool, Refusal>
        requires id { id ≡ sha256 bytes.now }
        requires short { length bytes.now ≤ MOST_CONTENT }
        ensures ok { IfOk result (λ made. IsReplayed self.old.header self.old.history who (PutContent bytes.now) made self.new.history) }
        ensures err { IfErr result (IsRefusal (judge self.old.header self.old.history (PutContent bytes.now))) }
        ensures kept { OnErr result (self.new.history ≡ self.old.history) }
        ensures header { self.new.header ≡ self.old.header }
        ensures legal { IsLegal self.new.header self.new.history }
    {
        self.check_up()?;
        if self.contents.length(&id).is_some() {
            return Ok(false);
        }
        let length = bytes.len() as u32;
        // Before the bytes stands a mark.
        self.enter_replayed(alloc, who, Made::Content { id, length }, 1 + length as u64)
    }

    /// Judges a changeset that was decoded of these bytes, as in a payload, for the seat `who`, and enters it. The path is the
    /// one that it leaves unresolved. It tells whether an entry is made: none is of a changeset that is known. Nothing is
    /// entered where it is refused, or where memory runs out.
    pub fn replay_changeset(
        &mut self,
        alloc: Global,
        who: u64,
        commit: Commit,
        bytes: &[u8],
        left: Option<RepoPath>,
    ) -> Result<bool, Refusal>
        requires spelled { bytes.now ≡ spelling commit }
        requires decoded { decoded (spelling commit) ≡ Ok commit }
        requires left { IsLeft self.old.history commit left }
        ensures ok { IfOk result (λ made. IsReplayed self.old.header self.old.history who (PutChangeset (spelling commit)) made self.new.history) }
        ensures err { IfErr result (IsRefusal (judge self.old.header self.old.history (PutChangeset (spelling commit)))) }
        ensures kept { OnErr result (self.new.history ≡ self.old.history) }
        ensures header { self.new.header ≡ self.old.header }
        ensures legal { IsLegal self.new.header self.new.history }
    {
        let known = self.check_changeset(alloc, &commit, left)?;
        if known {
            return Ok(false);
        }
        let shared = Arc::new(alloc, commit)?;
        self.enter_replayed(alloc, who, Made::Change(shared), bytes.len() as u64)
    }

    // Enters what is made, if its payload of this length fits. It tells that an entry is made.
    fn enter_replayed(
        &mut self,
        alloc: Global,
        who: u64,
        made: Made,
        payload: u64,
    ) -> Result<bool, Refusal>
        requires legal { IsLegal self.old.header self.old.history }
        requires can { CanMake self.old.header self.old.history (made_of made) }
        requires new { IsNew self.old.history (made_of made) }
        requires ready { IsMadeReady made }
        requires length { payload ≡ payload_len (made_of made) }
        requires short { payload ≤ MOST_PAYLOAD }
        requires few { length (changesets_in (made_of made)) ≤ MOST_STACK }
        ensures told { IfOk result (λ made. made ≡ true) }
        ensures fits { OnOk result (journal.size self.old.history + 5 + payload_len (made_of made) ≤ self.old.header.capacity) }
        ensures grows { OnOk result (self.new.history ≡ self.old.history ++ entry_by who (made_of made) ∷ []) }
        ensures err { IfErr result (Prevents self.old.header self.old.history (made_of made)) }
        ensures kept { OnErr result (self.new.history ≡ self.old.history) }
        ensures header { self.new.header ≡ self.old.header }
        ensures legal { IsLegal self.new.header self.new.history }
    {
        self.check_size(payload)?;
        self.make_room(alloc, &made)?;
        self.enter(who, made, FRAME as u64 + payload);
        Ok(true)
    }
}
