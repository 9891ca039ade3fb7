//! Reads.
ghost use Rattle.std.specs.Prelude.{◌≡◌, IsTrue, true, false, not, Some, IfOk, IfErr};
ghost use Rattle.std.specs.Arc.{arc_value};
ghost use Rattle.ports.specs.Faults.{Counts};
ghost use Rattle.disk_model.specs.Images.{IsImage};
ghost use Rattle.disk_model.specs.Calls.{Kept, LeavesOnly, Looked};
ghost use Rattle.history_model.specs.Bookmark.{head};
ghost use Rattle.history_model.specs.History.{changeset_of, known};
ghost use Rattle.reply_model.specs.After.{Answer, Answers, Looks, Replies, nothing};
ghost use Rattle.reply_model.specs.Reply.{ChangesetOf, CopiesOf, LogFrom, PolicyOf};
ghost use Rattle.repo_calls.specs.Asking.{fault_answer, is_bad_bytes, is_early, is_read_fault, IsAnswer, question_seen, reads_file};
ghost use Rattle.repo_state.specs.Asking.{TellsDigest};
ghost use Rattle.manifest_store.specs.Manifests.{AreManifests};
ghost use Rattle.repo_state.specs.Cores.{LooksSo};
ghost use Rattle.repo_state.specs.Manifests.{asks_manifest};
ghost use Rattle.settled_merge.specs.Settling.{StaySettled};
ghost use Rattle.repo_state.specs.State.{IsSound, LeavesNow, reach};

use crate::state::RepoState;
use blob_disk::Disk;
use bonsai::{Commit, encode};
use object_id::Id;
use repo_calls::{AskFault, Question, Seen};
use repo_path::BookName;
use std::alloc::Global;
use std::sync::Arc;

impl<D: Disk> RepoState<D> {
    /// Answers a read of the seat `who`. A content is read from the file, or from memory where its record waits, and all else
    /// is known or derived. What a read tells may not be sealed yet.
    pub fn look(&mut self, alloc: Global, who: u64, question: &Question) -> Result<Seen, AskFault>
        ensures reply { (answer : Answer) × IsAnswer result answer × Replies self.old.header self.old.history who (Looks (question_seen question.now)) answer self.new.history }
        ensures header { self.new.header ≡ self.old.header }
        ensures opening { self.new.opening ≡ self.old.opening }
        ensures sealed { self.new.sealed ≡ self.old.sealed }
        ensures sound { IsSound self.new.opening self.new.history self.new.sealed (reach self.new) self.new.disk }
        ensures left { self.new.left ≡ self.old.left }
        ensures leaves_now { LeavesNow self.new }
        ensures looked { Looked self.old.disk self.new.disk }
        ensures leaves { IsTrue self.old.disk.honest → LeavesOnly (IsImage self.new.disk.state) self.old.disk self.new.disk }
        ensures kept { Kept self.old.disk self.new.disk }
        ensures faults { Counts self.old.disk.faults self.new.disk.faults (is_read_fault result) }
        ensures found { TellsDigest self.old.disk self.old.history self.old.sealed result }
        ensures honest { IsTrue self.old.disk.honest → is_bad_bytes result ≡ false }

        // The disk isn't asked where something is missing, nor for what is known.
        ensures early { IsTrue (is_early result) → self.new.disk ≡ self.old.disk }
        ensures known { reads_file question.now ≡ false → self.new.disk ≡ self.old.disk }

        // Manifests are derived for reads of them alone.
        ensures table { asks_manifest question.now ≡ false → self.new.table ≡ self.old.table }
        ensures manifests { asks_manifest question.now ≡ true → AreManifests (known self.new.history) self.new.table }
        ensures stay { StaySettled self.old.table self.new.table }

        // It is a step of the repository of many seats.
        ensures core { LooksSo self.old.header self.old.history self.old.sealed who (not (is_read_fault result)) self.new.history }
    {
        // It keeps its rules.
        let _ = &self.disk;
        match *question {
            Question::Head(name) => Ok(Seen::Head(self.machine.head(name))),
            Question::Content(id) => match self.content(alloc, who, id) {
                Ok(bytes) => Ok(Seen::Bytes(bytes)),
                Err(fault) => Err(fault),
            },
            Question::Changeset(id) => self.encoding(alloc, id),
            Question::Log(from) => self.page(alloc, from),
            Question::Fsnode(id, dir) => match self.fsnode(alloc, id, dir) {
                Ok(bytes) => Ok(Seen::Bytes(bytes)),
                Err(fault) => Err(fault),
            },
            Question::Unode(id, path) => match self.unode(alloc, id, path) {
                Ok(bytes) => Ok(Seen::Bytes(bytes)),
                Err(fault) => Err(fault),
            },
            Question::History(id, path) => match self.file_history(alloc, id, path) {
                Ok(ids) => Ok(Seen::Ids(ids)),
                Err(fault) => Err(fault),
            },
            Question::Copies(id) => self.copies(alloc, id),
            Question::PathLog(id, path) => match self.path_log(alloc, id, path) {
                Ok(ids) => Ok(Seen::Ids(ids)),
                Err(fault) => Err(fault),
            },
            Question::Deleted(id, path) => match self.deleted(alloc, id, path) {
                Ok(bytes) => Ok(Seen::Bytes(bytes)),
                Err(fault) => Err(fault),
            },
            Question::Policy(number) => self.policy(alloc, number),
        }
    }

    /// The head of a bookmark. The disk isn't asked.
    pub fn head(&self, name: &BookName) -> Option<Id>
        ensures { result ≡ head self.now.history name.now }
    {
        self.machine.head(name)
    }

    // A page of the log.
    fn page(&self, alloc: Global, from: u64) -> Result<Seen, AskFault>
        ensures answer { (answer : Answer) × IsAnswer result answer × Answers self.now.header self.now.history (Looks (LogFrom from)) answer nothing }
        ensures sound { IsSound self.now.opening self.now.history self.now.sealed (reach self.now) self.now.disk }
        ensures read { (is_read_fault result ≡ false) × (is_bad_bytes result ≡ false) }
    {
        match self.machine.log(alloc, from) {
            Ok(page) => Ok(Seen::Log(page)),
            Err(_) => Err(AskFault::Memory),
        }
    }

    // The encoding of a changeset.
    fn encoding(&self, alloc: Global, id: Id) -> Result<Seen, AskFault>
        ensures answer { (answer : Answer) × IsAnswer result answer × Answers self.now.header self.now.history (Looks (ChangesetOf id)) answer nothing }
        ensures sound { IsSound self.now.opening self.now.history self.now.sealed (reach self.now) self.now.disk }
        ensures read { (is_read_fault result ≡ false) × (is_bad_bytes result ≡ false) }
    {
        let commit = self.changeset(id)?;
        match encode(alloc, commit.changeset()) {
            Ok(bytes) => Ok(Seen::Bytes(bytes)),
            Err(_) => Err(AskFault::Memory),
        }
    }

    // What a changeset sets as copies.
    fn copies(&self, alloc: Global, id: Id) -> Result<Seen, AskFault>
        ensures answer { (answer : Answer) × IsAnswer result answer × Answers self.now.header self.now.history (Looks (CopiesOf id)) answer nothing }
        ensures sound { IsSound self.now.opening self.now.history self.now.sealed (reach self.now) self.now.disk }
        ensures read { (is_read_fault result ≡ false) × (is_bad_bytes result ≡ false) }
    {
        match self.machine.copies(alloc, id) {
            Ok(copies) => Ok(Seen::Copies(copies)),
            Err(fault) => Err(fault),
        }
    }

    // The text of the policy that is held, or of the one that has this number in the log.
    fn policy(&self, alloc: Global, number: Option<u64>) -> Result<Seen, AskFault>
        ensures answer { (answer : Answer) × IsAnswer result answer × Answers self.now.header self.now.history (Looks (PolicyOf number)) answer nothing }
        ensures sound { IsSound self.now.opening self.now.history self.now.sealed (reach self.now) self.now.disk }
        ensures read { (is_read_fault result ≡ false) × (is_bad_bytes result ≡ false) }
    {
        let Some(text) = self.machine.policy(number) else {
            return Err(AskFault::NoPolicy);
        };
        match Vec::from_slice(alloc, text) {
            Ok(bytes) => Ok(Seen::Bytes(bytes)),
            Err(_) => Err(AskFault::Memory),
        }
    }

    /// The changeset with this id, shared, so that it can be encoded, or its copies told, where nobody waits for the repository.
    pub fn changeset(&self, id: Id) -> Result<Arc<Commit>, AskFault>
        ensures ok { IfOk result (λ commit. changeset_of (known self.now.history) id ≡ Some (arc_value commit)) }
        ensures err { IfErr result (λ fault. Answers self.now.header self.now.history (Looks (ChangesetOf id)) (fault_answer fault) nothing) }
        ensures read { (is_read_fault result ≡ false) × (is_bad_bytes result ≡ false) }
        ensures sound { IsSound self.now.opening self.now.history self.now.sealed (reach self.now) self.now.disk }
    {
        match self.machine.shared_changeset(&id) {
            Ok(Some(commit)) => Ok(commit),
            Ok(None) => Err(AskFault::NoChangeset { id }),
            Err(_) => Err(AskFault::Memory),
        }
    }
}
