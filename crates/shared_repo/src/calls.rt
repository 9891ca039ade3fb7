//! The calls of a seat by their names, each one of its changes or reads. What a change is granted is sealed before it is answered.
ghost use Rattle.std.specs.Prelude.{◌≡◌, ◌≤◌, false, IsTrue};
ghost use Rattle.bookmark_lock.specs.Place.{moved};
ghost use Rattle.reply_model.specs.Reply.{PutContent, PutChangeset, SetBookmark, LandDraft, SetPolicy, HeadOf, SeenHead, ContentOf, ChangesetOf, LogFrom, FsnodeOf, UnodeOf, HistoryOf, CopiesOf, PathLogOf, DeletedOf, PolicyOf};
ghost use Rattle.reply_model.specs.After.{After, Answer, Asks, Joins, Looks, Shows};
ghost use Rattle.repo_calls.specs.Asking.{IsAnswer, is_bad_bytes, is_disk_fault, is_misread, place_of, stored_answer};
ghost use Rattle.shared_repo.specs.Front.{IsFront};
ghost use Rattle.shared_repo.specs.Sealed.{IsLastTurn, UnlessRefused};
ghost use Rattle.repo_calls.specs.Sealing.{SealedAfter};

use crate::repo::Repo;
use crate::seat::RepoSeat;
use blob_disk::Disk;
use object_id::Id;
use ports::{Gate, NoGate};
use repo_calls::{Ask, AskFault, ChangeFault, Granted, Question, Seen};
use repo_path::{BookName, RepoPath};
use std::alloc::Global;
use std::sync::Wait;

impl<D: Disk> Repo<D> {
    /// Stores a content.
    pub fn put_content<R: Wait>(
        &self,
        rt: &R,
        alloc: Global,
        seat: &mut RepoSeat,
        bytes: &[u8],
    ) -> Result<Granted, ChangeFault>
        requires place { seat.old.lock ≡ self.now }
        ensures seat { seat.new ≡ moved seat.old seat.new }
        ensures after { After self.now.opening.header seat.old.front seat.old.number (Asks (PutContent bytes.now)) (stored_answer result) seat.new.front }
        ensures sealed { SealedAfter seat.new.sealed self.now.opening.header seat.old.front seat.old.number (Asks (PutContent bytes.now)) (stored_answer result) seat.new.front }
        ensures seals { seat.old.sealed ≤ seat.new.sealed }
        ensures stands { UnlessRefused result (IsLastTurn self.now.opening seat.old (is_disk_fault result) seat.new) }
        ensures front { IsFront self.now.opening seat.new.front }
    {
        self.change(rt, alloc, seat, &Ask::PutContent(bytes), &NoGate)
    }

    /// Joins contents to one: 1 to 64 ids of stored contents, in the order of the contents.
    pub fn put_whole<R: Wait>(
        &self,
        rt: &R,
        alloc: Global,
        seat: &mut RepoSeat,
        body: &[u8],
    ) -> Result<Granted, ChangeFault>
        requires place { seat.old.lock ≡ self.now }
        ensures seat { seat.new ≡ moved seat.old seat.new }
        ensures after { After self.now.opening.header seat.old.front seat.old.number (Joins body.now) (stored_answer result) seat.new.front }
        ensures sealed { SealedAfter seat.new.sealed self.now.opening.header seat.old.front seat.old.number (Joins body.now) (stored_answer result) seat.new.front }
        ensures seals { seat.old.sealed ≤ seat.new.sealed }
        ensures stands { UnlessRefused result (IsLastTurn self.now.opening seat.old (is_disk_fault result) seat.new) }
        ensures honest { IsTrue self.now.opening.honest → is_misread result ≡ false }
        ensures front { IsFront self.now.opening seat.new.front }
    {
        self.change(rt, alloc, seat, &Ask::PutWhole(body), &NoGate)
    }

    /// Stores the changeset that these bytes encode.
    pub fn put_changeset<R: Wait>(
        &self,
        rt: &R,
        alloc: Global,
        seat: &mut RepoSeat,
        bytes: &[u8],
    ) -> Result<Granted, ChangeFault>
        requires place { seat.old.lock ≡ self.now }
        ensures seat { seat.new ≡ moved seat.old seat.new }
        ensures after { After self.now.opening.header seat.old.front seat.old.number (Asks (PutChangeset bytes.now)) (stored_answer result) seat.new.front }
        ensures sealed { SealedAfter seat.new.sealed self.now.opening.header seat.old.front seat.old.number (Asks (PutChangeset bytes.now)) (stored_answer result) seat.new.front }
        ensures seals { seat.old.sealed ≤ seat.new.sealed }
        ensures stands { UnlessRefused result (IsLastTurn self.now.opening seat.old (is_disk_fault result) seat.new) }
        ensures front { IsFront self.now.opening seat.new.front }
    {
        self.change(rt, alloc, seat, &Ask::PutChangeset(bytes), &NoGate)
    }

    /// Moves a bookmark for a caller, if its head is `from`. `None` stands for no bookmark.
    pub fn set_bookmark<R: Wait>(
        &self,
        rt: &R,
        alloc: Global,
        seat: &mut RepoSeat,
        caller: &BookName,
        name: &BookName,
        from: Option<Id>,
        to: Option<Id>,
    ) -> Result<Granted, ChangeFault>
        requires place { seat.old.lock ≡ self.now }
        ensures seat { seat.new ≡ moved seat.old seat.new }
        ensures after { After self.now.opening.header seat.old.front seat.old.number (Asks (SetBookmark caller.now name.now from to)) (stored_answer result) seat.new.front }
        ensures sealed { SealedAfter seat.new.sealed self.now.opening.header seat.old.front seat.old.number (Asks (SetBookmark caller.now name.now from to)) (stored_answer result) seat.new.front }
        ensures seals { seat.old.sealed ≤ seat.new.sealed }
        ensures stands { UnlessRefused result (IsLastTurn self.now.opening seat.old (is_disk_fault result) seat.new) }
        ensures front { IsFront self.now.opening seat.new.front }
    {
        let ask = Ask::SetBookmark {
            caller,
            name,
            from,
            to,
        };
        self.change(rt, alloc, seat, &ask, &NoGate)
    }

    /// Sets the policy that has this text.
    pub fn set_policy<R: Wait>(
        &self,
        rt: &R,
        alloc: Global,
        seat: &mut RepoSeat,
        caller: &BookName,
        text: &[u8],
    ) -> Result<Granted, ChangeFault>
        requires place { seat.old.lock ≡ self.now }
        ensures seat { seat.new ≡ moved seat.old seat.new }
        ensures after { After self.now.opening.header seat.old.front seat.old.number (Asks (SetPolicy caller.now text.now)) (stored_answer result) seat.new.front }
        ensures sealed { SealedAfter seat.new.sealed self.now.opening.header seat.old.front seat.old.number (Asks (SetPolicy caller.now text.now)) (stored_answer result) seat.new.front }
        ensures seals { seat.old.sealed ≤ seat.new.sealed }
        ensures stands { UnlessRefused result (IsLastTurn self.now.opening seat.old (is_disk_fault result) seat.new) }
        ensures front { IsFront self.now.opening seat.new.front }
    {
        self.change(rt, alloc, seat, &Ask::SetPolicy { caller, text }, &NoGate)
    }

    /// Lands a draft on a bookmark for a caller. What is of the second version is dated at the moment, in seconds since 1970-01-01 00:00
    /// UTC. Each attempt but the last passes the gate between its plan and its entry.
    pub fn land<R: Wait, G: Gate>(
        &self,
        rt: &R,
        alloc: Global,
        seat: &mut RepoSeat,
        caller: &BookName,
        name: &BookName,
        draft: Id,
        moment: u64,
        gate: &G,
    ) -> Result<Granted, ChangeFault>
        requires place { seat.old.lock ≡ self.now }
        ensures seat { seat.new ≡ moved seat.old seat.new }
        ensures after { After self.now.opening.header seat.old.front seat.old.number (Asks (LandDraft caller.now name.now draft moment)) (stored_answer result) seat.new.front }
        ensures sealed { SealedAfter seat.new.sealed self.now.opening.header seat.old.front seat.old.number (Asks (LandDraft caller.now name.now draft moment)) (stored_answer result) seat.new.front }
        ensures seals { seat.old.sealed ≤ seat.new.sealed }
        ensures stands { UnlessRefused result (IsLastTurn self.now.opening seat.old (is_disk_fault result) seat.new) }
        ensures front { IsFront self.now.opening seat.new.front }
    {
        let ask = Ask::Land {
            caller,
            name,
            draft,
            moment,
        };
        self.change(rt, alloc, seat, &ask, gate)
    }

    /// The head of a bookmark, which is known in its turn.
    pub fn head<R: Wait>(&self, rt: &R, seat: &mut RepoSeat, name: &BookName) -> Option<Id>
        requires place { seat.old.lock ≡ self.now }
        ensures seat { seat.new ≡ moved seat.old seat.new }
        ensures after { After self.now.opening.header seat.old.front seat.old.number (Looks (HeadOf name.now)) (Shows (SeenHead result)) seat.new.front }
        ensures front { IsFront self.now.opening seat.new.front }
    {
        self.head_in_turn(rt, seat, name)
    }

    /// The bytes of a content.
    pub fn content<R: Wait>(
        &self,
        rt: &R,
        alloc: Global,
        seat: &mut RepoSeat,
        id: Id,
    ) -> Result<Seen, AskFault>
        requires place { seat.old.lock ≡ self.now }
        ensures seat { seat.new ≡ moved seat.old seat.new }
        ensures after { (answer : Answer) × IsAnswer result answer × After self.now.opening.header seat.old.front seat.old.number (Looks (ContentOf id)) answer seat.new.front }
        ensures honest { IsTrue self.now.opening.honest → is_bad_bytes result ≡ false }
        ensures front { IsFront self.now.opening seat.new.front }
    {
        self.look(rt, alloc, seat, &Question::Content(id))
    }

    /// The encoding of a changeset.
    pub fn changeset<R: Wait>(
        &self,
        rt: &R,
        alloc: Global,
        seat: &mut RepoSeat,
        id: Id,
    ) -> Result<Seen, AskFault>
        requires place { seat.old.lock ≡ self.now }
        ensures seat { seat.new ≡ moved seat.old seat.new }
        ensures after { (answer : Answer) × IsAnswer result answer × After self.now.opening.header seat.old.front seat.old.number (Looks (ChangesetOf id)) answer seat.new.front }
        ensures front { IsFront self.now.opening seat.new.front }
    {
        self.look(rt, alloc, seat, &Question::Changeset(id))
    }

    /// What a changeset sets as copies.
    pub fn copies<R: Wait>(
        &self,
        rt: &R,
        alloc: Global,
        seat: &mut RepoSeat,
        id: Id,
    ) -> Result<Seen, AskFault>
        requires place { seat.old.lock ≡ self.now }
        ensures seat { seat.new ≡ moved seat.old seat.new }
        ensures after { (answer : Answer) × IsAnswer result answer × After self.now.opening.header seat.old.front seat.old.number (Looks (CopiesOf id)) answer seat.new.front }
        ensures front { IsFront self.now.opening seat.new.front }
    {
        self.look(rt, alloc, seat, &Question::Copies(id))
    }

    /// A page of the log, from this number on.
    pub fn log<R: Wait>(
        &self,
        rt: &R,
        alloc: Global,
        seat: &mut RepoSeat,
        from: u64,
    ) -> Result<Seen, AskFault>
        requires place { seat.old.lock ≡ self.now }
        ensures seat { seat.new ≡ moved seat.old seat.new }
        ensures after { (answer : Answer) × IsAnswer result answer × After self.now.opening.header seat.old.front seat.old.number (Looks (LogFrom from)) answer seat.new.front }
        ensures front { IsFront self.now.opening seat.new.front }
    {
        self.look(rt, alloc, seat, &Question::Log(from))
    }

    /// The fsnode of a directory of a changeset's tree, or of its root.
    pub fn fsnode<R: Wait>(
        &self,
        rt: &R,
        alloc: Global,
        seat: &mut RepoSeat,
        id: Id,
        dir: Option<&RepoPath>,
    ) -> Result<Seen, AskFault>
        requires place { seat.old.lock ≡ self.now }
        ensures seat { seat.new ≡ moved seat.old seat.new }
        ensures after { (answer : Answer) × IsAnswer result answer × After self.now.opening.header seat.old.front seat.old.number (Looks (FsnodeOf id (place_of dir.entry))) answer seat.new.front }
        ensures front { IsFront self.now.opening seat.new.front }
    {
        self.look(rt, alloc, seat, &Question::Fsnode(id, dir))
    }

    /// The unode of a path of a changeset's tree, or of its root.
    pub fn unode<R: Wait>(
        &self,
        rt: &R,
        alloc: Global,
        seat: &mut RepoSeat,
        id: Id,
        path: Option<&RepoPath>,
    ) -> Result<Seen, AskFault>
        requires place { seat.old.lock ≡ self.now }
        ensures seat { seat.new ≡ moved seat.old seat.new }
        ensures after { (answer : Answer) × IsAnswer result answer × After self.now.opening.header seat.old.front seat.old.number (Looks (UnodeOf id (place_of path.entry))) answer seat.new.front }
        ensures front { IsFront self.now.opening seat.new.front }
    {
        self.look(rt, alloc, seat, &Question::Unode(id, path))
    }

    /// The changesets that set a file, newest first, back to the last whose parent lacks it as a file.
    pub fn history<R: Wait>(
        &self,
        rt: &R,
        alloc: Global,
        seat: &mut RepoSeat,
        id: Id,
        path: &RepoPath,
    ) -> Result<Seen, AskFault>
        requires place { seat.old.lock ≡ self.now }
        ensures seat { seat.new ≡ moved seat.old seat.new }
        ensures after { (answer : Answer) × IsAnswer result answer × After self.now.opening.header seat.old.front seat.old.number (Looks (HistoryOf id path.now)) answer seat.new.front }
        ensures front { IsFront self.now.opening seat.new.front }
    {
        self.look(rt, alloc, seat, &Question::History(id, path))
    }
    /// The changesets of a changeset's chain that set a path, or have another file there than their first parent, newest first.
    pub fn path_log<R: Wait>(
        &self,
        rt: &R,
        alloc: Global,
        seat: &mut RepoSeat,
        id: Id,
        path: &RepoPath,
    ) -> Result<Seen, AskFault>
        requires place { seat.old.lock ≡ self.now }
        ensures seat { seat.new ≡ moved seat.old seat.new }
        ensures after { (answer : Answer) × IsAnswer result answer × After self.now.opening.header seat.old.front seat.old.number (Looks (PathLogOf id path.now)) answer seat.new.front }
        ensures front { IsFront self.now.opening seat.new.front }
    {
        self.look(rt, alloc, seat, &Question::PathLog(id, path))
    }

    /// The deleted node of a path of a changeset's tree, or of its root.
    pub fn deleted<R: Wait>(
        &self,
        rt: &R,
        alloc: Global,
        seat: &mut RepoSeat,
        id: Id,
        dir: Option<&RepoPath>,
    ) -> Result<Seen, AskFault>
        requires place { seat.old.lock ≡ self.now }
        ensures seat { seat.new ≡ moved seat.old seat.new }
        ensures after { (answer : Answer) × IsAnswer result answer × After self.now.opening.header seat.old.front seat.old.number (Looks (DeletedOf id (place_of dir.entry))) answer seat.new.front }
        ensures front { IsFront self.now.opening seat.new.front }
    {
        self.look(rt, alloc, seat, &Question::Deleted(id, dir))
    }

    /// The text of the policy that is held, or of the one that has this number in the log.
    pub fn policy<R: Wait>(
        &self,
        rt: &R,
        alloc: Global,
        seat: &mut RepoSeat,
        number: Option<u64>,
    ) -> Result<Seen, AskFault>
        requires place { seat.old.lock ≡ self.now }
        ensures seat { seat.new ≡ moved seat.old seat.new }
        ensures after { (answer : Answer) × IsAnswer result answer × After self.now.opening.header seat.old.front seat.old.number (Looks (PolicyOf number)) answer seat.new.front }
        ensures front { IsFront self.now.opening seat.new.front }
    {
        self.look(rt, alloc, seat, &Question::Policy(number))
    }
}
