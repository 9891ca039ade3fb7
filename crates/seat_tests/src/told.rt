//! A seat whose answers depend on what is asked for alone.
ghost use Rattle.std.specs.Prelude.{[], IfOk};
ghost use Rattle.bookmark_lock.specs.Opening.{unopened};
ghost use Rattle.seat_tests.specs.Told.{IsTold, IsLanding, IsPage, lawful, widens};

use object_id::Id;
use repo_calls::{
    Ask, AskFault, ChangeFault, CopiedPath, Granted, LogEntry, LogPage, Question, Refusal, Seat,
    Seen,
};
use repo_path::{BookName, RepoPath};
use stacked_calls::StackSeat;
use std::alloc::Global;

/// A seat that knows one changeset, whose id is that of `abc`, and tells of two landings. Each content has the bytes of
/// another id; the first that is to be joined isn't read at all. All else wants memory.
#[derive(Drop)]
pub(crate) struct Told {
    pub(crate) known: Id,
    pub(crate) other: Id,
    /// When it was asked to land.
    pub(crate) moments: Vec<u64>,
    /// No content was asked to be joined yet.
    pub(crate) unread: bool,
}

impl Seat for Told {
    ghost header = { λ _. unopened.header };

    ghost front = { λ _. [] };

    ghost number = { λ _. 0 };

    ghost Home = { Unit {0} };

    ghost home = { λ _. tt };

    ghost sealed = { λ _. 0 };

    ghost replies = { λ _ _ _ _ _ call answer _. IsTold call answer };

    fn sealed(&self) -> u64 {
        0
    }

    fn change(&mut self, _alloc: Global, ask: &Ask) -> Result<Granted, ChangeFault> {
        self.note(ask);
        match ask {
            Ask::PutWhole(_) if self.unread => {
                self.unread = false;
                Err(ChangeFault::ReadFault)
            }
            Ask::PutWhole(_) => Err(ChangeFault::BadBytes {
                wanted: self.known,
                found: self.other,
            }),
            _ => Err(ChangeFault::Refused(Refusal::Memory)),
        }
    }

    fn look(&mut self, alloc: Global, question: &Question) -> Result<Seen, AskFault> {
        match *question {
            Question::Content(wanted) => Err(AskFault::BadBytes {
                wanted,
                found: self.other,
            }),
            Question::Fsnode(id, dir) => Ok(Seen::Bytes(self.node(alloc, id, "fsnode", dir)?)),
            Question::Unode(id, path) => Ok(Seen::Bytes(self.node(alloc, id, "unode", path)?)),
            Question::Deleted(id, dir) => Ok(Seen::Bytes(self.node(alloc, id, "deleted", dir)?)),
            Question::History(id, path) => Ok(Seen::Ids(self.history(alloc, id, path)?)),
            Question::PathLog(id, path) => Ok(Seen::Ids(self.history(alloc, id, path)?)),
            Question::Policy(number) => Ok(Seen::Bytes(self.policy(alloc, number)?)),
            Question::Copies(id) => Ok(Seen::Copies(self.copies(alloc, id)?)),
            Question::Log(0) => Ok(Seen::Log(self.page(alloc)?)),
            _ => Err(AskFault::Memory),
        }
    }

    ghost lawful = { λ _ _. lawful };

    ghost widens = { λ _ _ _ _. widens };
}

impl StackSeat for Told {
    // It stores nothing.
    ghost enters = { λ _ _ _ _ _ _. ⊥ };
}

fn path_of(alloc: Global, text: &str) -> Result<RepoPath, AskFault> {
    match RepoPath::parse(alloc, text) {
        Ok(path) => Ok(path),
        Err(_) => Err(AskFault::Memory),
    }
}

fn copied(alloc: Global, to: &str, parent: u8, from: &str) -> Result<CopiedPath, AskFault> {
    Ok(CopiedPath {
        to: path_of(alloc, to)?,
        parent,
        from: path_of(alloc, from)?,
    })
}

impl Told {
    fn note(&mut self, ask: &Ask) {
        if let Ask::Land { moment, .. } = ask {
            let _ = self.moments.push(*moment);
        }
    }

    fn know(&self, id: Id) -> Result<(), AskFault> {
        if id == self.known {
            return Ok(());
        }
        Err(AskFault::NoChangeset { id })
    }

    // The text of the path tells what is there.
    fn find(&self, path: &RepoPath) -> Result<(), AskFault> {
        match path.as_str() {
            "none" => Err(AskFault::NoPath),
            "file" => Err(AskFault::NotADir),
            "dir" => Err(AskFault::NotAFile),
            "twice" => Err(AskFault::Collision { id: self.other }),
            "unread" => Err(AskFault::ReadFault),
            _ => Ok(()),
        }
    }

    // The kind of the node with its path, if it has one, in the place of its bytes.
    fn node(
        &self,
        alloc: Global,
        id: Id,
        kind: &str,
        path: Option<&RepoPath>,
    ) -> Result<Vec<u8>, AskFault> {
        self.know(id)?;
        let mut bytes = Vec::from_slice(alloc, kind.as_bytes())?;
        if let Some(path) = path {
            self.find(path)?;
            bytes.push(b' ')?;
            bytes.extend_from_slice(path.as_str().as_bytes())?;
        }
        Ok(bytes)
    }

    fn history(&self, alloc: Global, id: Id, path: &RepoPath) -> Result<Vec<Id>, AskFault> {
        self.know(id)?;
        self.find(path)?;
        Ok(Vec::from_slice(alloc, &[self.other, self.known])?)
    }

    // One policy is held, and no entry of the log is one.
    fn policy(&self, alloc: Global, number: Option<u64>) -> Result<Vec<u8>, AskFault> {
        match number {
            None => Ok(Vec::from_slice(alloc, b"allow ann lib")?),
            Some(_) => Err(AskFault::NoPolicy),
        }
    }

    fn copies(&self, alloc: Global, id: Id) -> Result<Vec<CopiedPath>, AskFault> {
        self.know(id)?;
        let mut copies = Vec::new(alloc);
        copies.push(copied(alloc, "q", 0, "p")?)?;
        copies.push(copied(alloc, "r\"s", 1, "d/p")?)?;
        Ok(copies)
    }

    // One that landed no changeset.
    fn landing(&self, alloc: Global, moment: Option<u64>) -> Result<LogEntry, AskFault>
        ensures { IfOk result IsLanding }
    {
        match BookName::parse(alloc, "main") {
            Ok(name) => Ok(LogEntry::Landing {
                name,
                old: self.other,
                draft: self.known,
                moment,
                ids: Vec::new(alloc),
                caller: None,
            }),
            Err(_) => Err(AskFault::Memory),
        }
    }

    // Two landings, of which the later one tells when it was.
    fn page(&self, alloc: Global) -> Result<LogPage, AskFault>
        ensures { IfOk result IsPage }
    {
        let first = self.landing(alloc, None)?;
        let second = self.landing(alloc, Some(1_000))?;
        let mut entries = Vec::new(alloc);
        entries.push(first)?;
        entries.push(second)?;
        Ok(LogPage { entries, total: 2 })
    }
}
