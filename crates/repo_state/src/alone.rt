//! A repository that is served alone.
ghost use Rattle.std.specs.Prelude.{◌≡◌, ◌≤◌, ◌||◌, IsTrue, IfOk, Ok, false, length};
ghost use Rattle.ports.specs.Faults.{Counts};
ghost use Rattle.disk_model.specs.Calls.{Kept, Looked};
ghost use Rattle.history_model.specs.History.{bodies};
ghost use Rattle.bookmark_lock.specs.Opening.{Opening};
ghost use Rattle.reply_model.specs.After.{Asks, Call};
ghost use Rattle.reply_model.specs.Reply.{PutContent};
ghost use Rattle.repo_calls.proofs.Honest.{honestly};
ghost use Rattle.repo_calls.proofs.Sealing.{honestly_wider};
ghost use Rattle.repo_calls.specs.Calls.{call_seen, granted_seen};
ghost use Rattle.repo_calls.specs.Asking.{stored_answer, is_disk_fault, is_misread, is_unread};
ghost use Rattle.repo_calls.specs.Replying.{Honestly};
ghost use Rattle.repo_state.specs.Asking.{is_join};
ghost use Rattle.repo_state.specs.Alone.{RepliesAlone, SealedAlone, alone_wider, sealed_alone};
ghost use Rattle.repo_state.specs.AloneSteps.{IsSealedFor, IsStored};
ghost use Rattle.repo_state.specs.Cores.{StoresCallAlone};
ghost use Rattle.repo_state.specs.Images.{LeavesChange};
ghost use Rattle.repo_state.specs.State.{State, IsSealedAlone, IsSound, LeavesNow, reach};
ghost use Rattle.repo_state.specs.Trees.{LandsAs};

use crate::state::RepoState;
use blob_disk::Disk;
use bonsai::MOST_CONTENT;
use repo_calls::{Ask, AskFault, ChangeFault, Granted, Question, Refusal, Seat, Seen};
use repo_machine::FramedContent;
use stacked_calls::StackSeat;
use std::alloc::Global;
use std::marker::Model;

/// A repository that is served alone: each change is sealed before it is answered, so between calls nothing waits, unless the
/// disk failed. Contracts see the repository.
#[derive(Drop)]
pub struct Alone<D: Disk> {
    state: RepoState<D>,
}

impl<D: Disk> Model for Alone<D> {
    ghost use Rattle.repo_state.specs.State.{State, IsSealedAlone};

    ghost Value = { State };

    ghost use Rattle.std.specs.Coded.{codes};
    ghost use Rattle.node_table.specs.Table.{coded_table};

    ghost coded = { Prim.hlevel (codes, coded_table) };

    ghost view = { λ a. a.state };

    ghost invariant = { λ a. IsSealedAlone a.state.history a.state.sealed };
}

impl<D: Disk> Alone<D> {
    /// A repository of which all is sealed, unless the disk failed a change, whose entry isn't then.
    pub fn new(state: RepoState<D>) -> Self
        requires sealed { IsSealedAlone state.history state.sealed }
        ensures { result ≡ state }
    {
        Alone { state }
    }

    /// The repository.
    pub fn into_state(self) -> RepoState<D>
        ensures state { result ≡ self }
        ensures sealed { IsSealedAlone result.history result.sealed }
    {
        self.state
    }

    /// Makes a change, and seals its entry, if it makes one, before it is answered. All memory but that for the entry of
    /// joined contents is taken before the first call of the disk, and a change without an entry leaves the disk alone, unless
    /// contents were read for it.
    pub fn store(&mut self, alloc: Global, ask: &Ask) -> Result<Granted, ChangeFault>
        ensures reply { RepliesAlone self.old.header self.old.history 0 (call_seen ask.now) (stored_answer result) self.new.history }
        ensures header { self.new.header ≡ self.old.header }
        ensures seals { self.old.sealed ≤ self.new.sealed }
        ensures opening { self.new.opening ≡ self.old.opening }
        ensures table { self.new.table ≡ self.old.table }
        ensures sound { IsSound self.new.opening self.new.history self.new.sealed (reach self.new) self.new.disk }
        ensures leaves_now { LeavesNow self.new }

        // What is granted is sealed.
        ensures sealed { IfOk result (λ granted. length (bodies self.new.history) ≤ self.new.sealed) }

        // A change that is refused, and one that makes no entry, leave all as it was. For contents that are to be joined the
        // disk was read.
        ensures same { is_join (call_seen ask.now) ≡ false → is_disk_fault result ≡ false → self.new.history ≡ self.old.history → self.new.disk ≡ self.old.disk }
        ensures looked { is_disk_fault result ≡ false → self.new.history ≡ self.old.history → Looked self.old.disk self.new.disk }

        // Each image stood for the history before or after.
        ensures leaves { IsTrue self.old.disk.honest → LeavesChange self.old.header self.old.history self.new.history self.old.disk self.new.disk }
        ensures kept { Kept self.old.disk self.new.disk }

        // The disk fails the change only where a call of it failed.
        ensures faults { Counts self.old.disk.faults self.new.disk.faults (is_disk_fault result || is_unread result) }

        // Only contents that are to be joined are read. Those of another id are what the disk gave, which an honest disk never
        // does.
        ensures read { is_join (call_seen ask.now) ≡ false → (is_unread result ≡ false) × (is_misread result ≡ false) }
        ensures honest { IsTrue self.old.disk.honest → is_misread result ≡ false }

        // Where a stack lands, the new head's tree has what it sets, and else what the old head's has, in which no path that
        // the stack touches was changed since the root.
        ensures lands { IfOk result (λ granted. LandsAs (call_seen ask.now) (granted_seen granted) self.old.history self.new.history) }

        // It is these steps of the repository of many seats.
        ensures core { StoresCallAlone self.old.header self.old.history self.old.sealed self.old.left (call_seen ask.now) (stored_answer result) self.new.history self.new.sealed self.new.left }
    {
        // What is sealed is stored, no group is under way, and the header is that of the opening.
        let _stored = self.state.stored_length();
        let _length = self.state.history_length();
        let stored = self.state.store(alloc, 0, ask);
        self.state.seal_stored(stored)
    }

    /// Stores a content that is in its record, and seals its entry, if it makes one, before it is answered, as `store` does.
    /// Its bytes aren't hashed and copied here.
    pub fn store_framed(
        &mut self,
        alloc: Global,
        content: FramedContent,
    ) -> Result<Granted, ChangeFault>
        ensures reply { RepliesAlone self.old.header self.old.history 0 (Asks (PutContent content)) (stored_answer result) self.new.history }
        ensures header { self.new.header ≡ self.old.header }
        ensures seals { self.old.sealed ≤ self.new.sealed }
        ensures opening { self.new.opening ≡ self.old.opening }
        ensures table { self.new.table ≡ self.old.table }
        ensures sound { IsSound self.new.opening self.new.history self.new.sealed (reach self.new) self.new.disk }
        ensures leaves_now { LeavesNow self.new }

        // What is granted is sealed.
        ensures sealed { IfOk result (λ granted. length (bodies self.new.history) ≤ self.new.sealed) }

        // Where it is refused, and where the content was stored before, all is left as it was.
        ensures same { is_disk_fault result ≡ false → self.new.history ≡ self.old.history → self.new.disk ≡ self.old.disk }

        // Each image stood for the history before or after.
        ensures leaves { IsTrue self.old.disk.honest → LeavesChange self.old.header self.old.history self.new.history self.old.disk self.new.disk }
        ensures kept { Kept self.old.disk self.new.disk }

        // The disk fails it only where a call of it failed, and nothing is read for it.
        ensures faults { Counts self.old.disk.faults self.new.disk.faults (is_disk_fault result) }
        ensures unread { is_unread result ≡ false }
        ensures misread { is_misread result ≡ false }

        // It is these steps of the repository of many seats.
        ensures core { StoresCallAlone self.old.header self.old.history self.old.sealed self.old.left (Asks (PutContent content)) (stored_answer result) self.new.history self.new.sealed self.new.left }
    {
        // What is sealed is stored, and no group is under way.
        let _stored = self.state.stored_length();
        let _length = self.state.history_length();
        let entered = self.state.store_framed(alloc, 0, content);
        self.state.seal_stored(entered)
    }
}

impl<D: Disk> RepoState<D> {
    // Seals the entry of a change of the only seat, if it made one, and answers the change.
    fn seal_stored(&mut self, stored: Result<Granted, ChangeFault>) -> Result<Granted, ChangeFault>
        ensures header { self.new.header ≡ self.old.header }
        ensures seals { self.old.sealed ≤ self.new.sealed }
        ensures opening { self.new.opening ≡ self.old.opening }
        ensures table { self.new.table ≡ self.old.table }
        ensures sound { IsSound self.new.opening self.new.history self.new.sealed (reach self.new) self.new.disk }
        ensures leaves_now { LeavesNow self.new }
        ensures kept { Kept self.old.disk self.new.disk }
        ensures sealed { IfOk result (λ granted. length (bodies self.new.history) ≤ self.new.sealed) }
        ensures granted { IfOk result (λ granted. (stored ≡ Ok granted) × (self.new.history ≡ self.old.history)) }
        ensures unread { is_unread result ≡ is_unread stored }
        ensures misread { is_misread result ≡ is_misread stored }

        // Whichever change it was.
        ensures change { (before : State) (call : Call) → IsStored before call stored self.old → IsSealedFor before call self.old result self.new }
    {
        // It keeps its rules.
        let _ = &self.disk;
        let granted = stored?;
        let upto = self.stored_length();
        match self.seal(0, upto) {
            Ok(()) => Ok(granted),
            Err(_) => Err(ChangeFault::DiskFault),
        }
    }
}

/// Its one seat has the number 0, and has seen all of its history.
impl<D: Disk> Seat for Alone<D> {
    ghost header = { λ s. s.header };

    ghost front = { λ s. s.history };

    ghost number = { λ _. 0 };

    ghost sealed = { λ s. s.sealed };

    ghost Home = { Opening };

    ghost home = { λ s. s.opening };

    ghost replies = { λ opening n. Honestly opening.honest (SealedAlone n) };

    fn sealed(&self) -> u64 {
        self.state.sealed()
    }

    #[tactic(auto, using(crate::proofs::AloneSealed::change_owed))]
    fn change(&mut self, alloc: Global, ask: &Ask) -> Result<Granted, ChangeFault> {
        self.store(alloc, ask)
    }

    #[tactic(auto, using(crate::proofs::AloneSealed::change_owed, crate::proofs::AloneSealed::memory_owed))]
    fn put_content(&mut self, alloc: Global, bytes: Vec<u8>) -> Result<Granted, ChangeFault> {
        if bytes.len() as u64 > MOST_CONTENT {
            return self.store(alloc, &Ask::PutContent(bytes.as_slice()));
        }
        let Ok(content) = FramedContent::new(bytes) else {
            return Err(ChangeFault::Refused(Refusal::Memory));
        };
        self.store_framed(alloc, content)
    }

    #[tactic(auto, using(crate::proofs::AloneSealed::look_owed))]
    fn look(&mut self, alloc: Global, question: &Question) -> Result<Seen, AskFault> {
        self.state.look(alloc, 0, question)
    }

    ghost lawful = { λ opening n. honestly opening.honest (SealedAlone n) (sealed_alone n) };

    ghost widens = { λ opening m n le. honestly_wider opening.honest (SealedAlone m) (SealedAlone n) (alone_wider m n le) };
}

/// Each change is sealed by itself.
impl<D: Disk> StackSeat for Alone<D> {
    // None waits for the seal of another one.
    ghost enters = { λ _ _ _ _ _ _. ⊥ };
}
