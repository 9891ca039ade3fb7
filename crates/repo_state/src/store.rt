//! Changes.
ghost use Rattle.std.specs.Prelude.{◌≡◌, false, true, IfOk, IsTrue};
ghost use Rattle.ports.specs.Faults.{Counts};
ghost use Rattle.disk_model.specs.Images.{IsImage};
ghost use Rattle.disk_model.specs.Calls.{Kept, LeavesOnly, Looked};
ghost use Rattle.history_model.specs.History.{is_down};
ghost use Rattle.reply_model.specs.After.{Asks, Replies};
ghost use Rattle.reply_model.specs.Reply.{Ask as ModelAsk, PutContent};
ghost use Rattle.repo_calls.specs.Asking.{is_disk_fault, is_misread, is_unread, stored_answer};
ghost use Rattle.repo_calls.specs.Calls.{call_seen, granted_seen};
ghost use Rattle.repo_machine.specs.Entering.{Judges};
ghost use Rattle.repo_machine.specs.Found.{IsFound, IsLeft};
ghost use Rattle.repo_machine.specs.Prepared.{IsPrepared, asked_by};
ghost use Rattle.repo_state.specs.Asking.{is_join};
ghost use Rattle.repo_state.specs.Cores.{StoresCall};
ghost use Rattle.repo_state.specs.Joining.{Holds};
ghost use Rattle.repo_state.specs.State.{IsSound, LeavesNow, entered_answer, reach};
ghost use Rattle.repo_state.specs.Trees.{LandsAs};

use crate::state::RepoState;
use blob_disk::Disk;
use bonsai::Commit;
use repo_calls::{Ask, ChangeFault, Granted, Refusal};
use repo_machine::{Found, FramedContent, Judged, Prepared, Wanted, prepare};
use repo_path::RepoPath;
use settled_merge::left_unresolved;
use std::alloc::{AllocError, Global};

impl<D: Disk> RepoState<D> {
    /// Makes a change that the seat `who` asks for. The entry that it makes, if it makes one, waits to be sealed. All memory
    /// is taken before it is entered. The disk is asked for contents that are to be joined, and for nothing else: where it
    /// fails to read them, that is entered as a fault that the seat met.
    pub fn store(&mut self, alloc: Global, who: u64, ask: &Ask) -> Result<Granted, ChangeFault>
        ensures reply { Replies self.old.header self.old.history who (call_seen ask.now) (stored_answer result) self.new.history }
        ensures header { self.new.header ≡ self.old.header }
        ensures opening { self.new.opening ≡ self.old.opening }
        ensures table { self.new.table ≡ self.old.table }
        ensures sealed { self.new.sealed ≡ self.old.sealed }
        ensures sound { IsSound self.new.opening self.new.history self.new.sealed (reach self.new) self.new.disk }
        ensures left { self.new.left ≡ self.old.left }
        ensures leaves_now { LeavesNow self.new }
        ensures looked { Looked self.old.disk self.new.disk }
        ensures leaves { IsTrue self.old.disk.honest → LeavesOnly (IsImage self.new.disk.state) self.old.disk self.new.disk }
        ensures kept { Kept self.old.disk self.new.disk }

        // What is stored waits, so nothing fails to be stored. A read fails it only where a call of the disk failed.
        ensures undone { is_disk_fault result ≡ false }
        ensures faults { Counts self.old.disk.faults self.new.disk.faults (is_unread result) }

        // Bytes of another id are what the disk gave, which an honest disk never does.
        ensures honest { IsTrue self.old.disk.honest → is_misread result ≡ false }

        // Once nothing more is stored, nothing is read for it.
        ensures down { is_down self.old.history ≡ true → self.new.disk ≡ self.old.disk }

        // Only contents that are to be joined are read.
        ensures disk { is_join (call_seen ask.now) ≡ false → self.new.disk ≡ self.old.disk }
        ensures read { is_join (call_seen ask.now) ≡ false → (is_unread result ≡ false) × (is_misread result ≡ false) }

        // Where a stack lands, the new head's tree has what it sets, and else what the old head's has, in which no path that
        // the stack touches was changed since the root.
        ensures lands { IfOk result (λ granted. LandsAs (call_seen ask.now) (granted_seen granted) self.old.history self.new.history) }

        // It is these steps of the repository of many seats.
        ensures core { StoresCall self.old.header self.old.history self.old.sealed who (call_seen ask.now) (stored_answer result) self.new.history }
    {
        // It keeps its rules.
        let _ = &self.disk;
        match prepare(alloc, ask) {
            Ok(prepared) => self.store_prepared(alloc, who, prepared),
            Err(_) => Err(ChangeFault::Refused(Refusal::Memory)),
        }
    }

    /// Makes a change of which this is ready, as `store` does. No upload is hashed, decoded or encoded here, and no policy is
    /// read. Contents that are to be joined are hashed.
    pub fn store_prepared(
        &mut self,
        alloc: Global,
        who: u64,
        prepared: Prepared<'_>,
    ) -> Result<Granted, ChangeFault>
        requires prepared { IsPrepared prepared }
        ensures reply { Replies self.old.header self.old.history who (asked_by prepared.entry) (stored_answer result) self.new.history }
        ensures header { self.new.header ≡ self.old.header }
        ensures opening { self.new.opening ≡ self.old.opening }
        ensures table { self.new.table ≡ self.old.table }
        ensures sealed { self.new.sealed ≡ self.old.sealed }
        ensures sound { IsSound self.new.opening self.new.history self.new.sealed (reach self.new) self.new.disk }
        ensures left { self.new.left ≡ self.old.left }
        ensures leaves_now { LeavesNow self.new }
        ensures looked { Looked self.old.disk self.new.disk }
        ensures leaves { IsTrue self.old.disk.honest → LeavesOnly (IsImage self.new.disk.state) self.old.disk self.new.disk }
        ensures kept { Kept self.old.disk self.new.disk }

        // What is stored waits, so nothing fails to be stored. A read fails it only where a call of the disk failed.
        ensures undone { is_disk_fault result ≡ false }
        ensures faults { Counts self.old.disk.faults self.new.disk.faults (is_unread result) }

        // Bytes of another id are what the disk gave, which an honest disk never does.
        ensures honest { IsTrue self.old.disk.honest → is_misread result ≡ false }

        // Once nothing more is stored, nothing is read for it.
        ensures down { is_down self.old.history ≡ true → self.new.disk ≡ self.old.disk }

        // Only contents that are to be joined are read.
        ensures disk { is_join (asked_by prepared.entry) ≡ false → self.new.disk ≡ self.old.disk }
        ensures read { is_join (asked_by prepared.entry) ≡ false → (is_unread result ≡ false) × (is_misread result ≡ false) }

        // Where a stack lands, the new head's tree has what it sets, and else what the old head's has, in which no path that
        // the stack touches was changed since the root.
        ensures lands { IfOk result (λ granted. LandsAs (asked_by prepared.entry) (granted_seen granted) self.old.history self.new.history) }

        // It is these steps of the repository of many seats.
        ensures core { StoresCall self.old.header self.old.history self.old.sealed who (asked_by prepared.entry) (stored_answer result) self.new.history }
    {
        // It keeps its rules.
        let _ = &self.disk;
        let found = match prepared.wants() {
            Wanted::Joined(body) => return self.store_joined(alloc, who, body),
            Wanted::Unresolved(commit) => match self.left_by(alloc, commit) {
                Ok(path) => Found::Unresolved(path),
                Err(AllocError) => return Err(ChangeFault::Refused(Refusal::Memory)),
            },
            Wanted::Nothing => Found::Nothing,
        };
        self.store_found(alloc, who, prepared, found)
    }

    // The same of a change for which this was found, where no contents are to be joined.
    fn store_found(
        &mut self,
        alloc: Global,
        who: u64,
        prepared: Prepared<'_>,
        found: Found,
    ) -> Result<Granted, ChangeFault>
        requires prepared { IsPrepared prepared }
        requires found { IsFound self.old.header self.old.history prepared found }
        requires single { is_join (asked_by prepared) ≡ false }
        ensures reply { Replies self.old.header self.old.history who (asked_by prepared.entry) (stored_answer result) self.new.history }
        ensures header { self.new.header ≡ self.old.header }
        ensures opening { self.new.opening ≡ self.old.opening }
        ensures table { self.new.table ≡ self.old.table }
        ensures sealed { self.new.sealed ≡ self.old.sealed }
        ensures sound { IsSound self.new.opening self.new.history self.new.sealed (reach self.new) self.new.disk }
        ensures left { self.new.left ≡ self.old.left }
        ensures leaves_now { LeavesNow self.new }
        ensures disk { self.new.disk ≡ self.old.disk }
        ensures undone { is_disk_fault result ≡ false }
        ensures unread { is_unread result ≡ false }
        ensures misread { is_misread result ≡ false }
        ensures lands { IfOk result (λ granted. LandsAs (asked_by prepared.entry) (granted_seen granted) self.old.history self.new.history) }
        ensures core { StoresCall self.old.header self.old.history self.old.sealed who (asked_by prepared.entry) (stored_answer result) self.new.history }
    {
        let judged = match self.machine.judge_prepared(alloc, who, prepared, found) {
            Ok(judged) => judged,
            Err(refusal) => return Err(ChangeFault::Refused(refusal)),
        };
        match self.enter(judged) {
            Ok(granted) => Ok(granted),
            Err(refusal) => Err(ChangeFault::Refused(refusal)),
        }
    }

    /// Stores a content that is in its record, as `store` does: its bytes aren't hashed and copied here, and the disk isn't
    /// asked for anything.
    pub fn store_framed(
        &mut self,
        alloc: Global,
        who: u64,
        content: FramedContent,
    ) -> Result<Granted, ChangeFault>
        ensures reply { Replies self.old.header self.old.history who (Asks (PutContent content)) (stored_answer result) self.new.history }
        ensures header { self.new.header ≡ self.old.header }
        ensures opening { self.new.opening ≡ self.old.opening }
        ensures table { self.new.table ≡ self.old.table }
        ensures sealed { self.new.sealed ≡ self.old.sealed }
        ensures sound { IsSound self.new.opening self.new.history self.new.sealed (reach self.new) self.new.disk }
        ensures left { self.new.left ≡ self.old.left }
        ensures leaves_now { LeavesNow self.new }
        ensures disk { self.new.disk ≡ self.old.disk }
        ensures undone { is_disk_fault result ≡ false }
        ensures unread { is_unread result ≡ false }
        ensures misread { is_misread result ≡ false }

        // It is these steps of the repository of many seats.
        ensures core { StoresCall self.old.header self.old.history self.old.sealed who (Asks (PutContent content)) (stored_answer result) self.new.history }
    {
        let judged = match self.machine.judge_framed(alloc, who, content) {
            Ok(judged) => judged,
            Err(refusal) => return Err(ChangeFault::Refused(refusal)),
        };
        match self.enter(judged) {
            Ok(granted) => Ok(granted),
            Err(refusal) => Err(ChangeFault::Refused(refusal)),
        }
    }

    // What a merge leaves unresolved between its parents' trees, if they are known.
    fn left_by(&self, alloc: Global, commit: &Commit) -> Result<Option<RepoPath>, AllocError>
        ensures { IfOk result (IsLeft self.now.history commit.now) }
    {
        left_unresolved(
            alloc,
            self.machine.changesets(),
            &self.manifests,
            commit.changeset(),
        )
    }

    // Enters what was judged. Its record waits, if it makes an entry, for which memory is taken first.
    pub(crate) fn enter(&mut self, judged: Judged) -> Result<Granted, Refusal>
        requires judged { (ask : ModelAsk) × Judges self.old.header self.old.history self.old.room judged.who ask judged }
        requires holds { Holds self.old judged.made }
        ensures reply { (ask : ModelAsk) → Judges self.old.header self.old.history self.old.room judged.who ask judged → Replies self.old.header self.old.history judged.who (Asks ask) (entered_answer result) self.new.history }
        ensures header { self.new.header ≡ self.old.header }
        ensures opening { self.new.opening ≡ self.old.opening }
        ensures table { self.new.table ≡ self.old.table }
        ensures sealed { self.new.sealed ≡ self.old.sealed }
        ensures disk { self.new.disk ≡ self.old.disk }
        ensures sound { IsSound self.new.opening self.new.history self.new.sealed (reach self.new) self.new.disk }
        ensures left { self.new.left ≡ self.old.left }
        ensures leaves_now { LeavesNow self.new }
    {
        let Some(frame) = judged.frame() else {
            return Ok(self.machine.admit(judged));
        };
        if self.journal.reserve_behind(frame.len()).is_err() {
            return Err(Refusal::Memory);
        }
        let (granted, frame) = self.machine.admit_framed(judged);
        self.journal.take(frame);
        Ok(granted)
    }
}
