//! What a change was judged to make.
ghost use Rattle.std.specs.Prelude.{◌≡◌, None, [], option_map};
ghost use Rattle.repo_calls.specs.Calls.{granted_seen};

use crate::frame::Frame;
use crate::records::{LandRecord, PolicyRecord, WholeRecord};
use bonsai::Commit;
use land_policy::Rules;
use object_id::Id;
use repo_calls::Granted;
use repo_events::Move;
use std::alloc::Global;
use std::marker::Model;
use std::sync::Arc;

/// A landing: what its entry keeps, with memory for the numbers of its changesets, and those changesets.
#[derive(Drop)]
pub(crate) struct LandMade {
    pub(crate) kept: Box<LandRecord>,
    pub(crate) new: Vec<Arc<Commit>>,
}

/// A whole: what its entry keeps, and its parts once more.
#[derive(Drop)]
pub(crate) struct WholeMade {
    pub(crate) kept: Box<WholeRecord>,
    pub(crate) shared: Arc<Vec<Id>>,
}

/// A policy: what its entry keeps, and its rules.
#[derive(Drop)]
pub(crate) struct PolicyMade {
    pub(crate) kept: Box<PolicyRecord>,
    pub(crate) rules: Rules,
}

/// What a change makes, ready to be entered without memory.
#[derive(Drop)]
pub(crate) enum Made {
    Content { id: Id, length: u32 },
    Whole(WholeMade),
    Change(Arc<Commit>),
    Book(Box<Move>),
    Land(LandMade),
    Policy(PolicyMade),
}

/// A change that was judged at a history: who asked for it, what it is granted, the entry that it makes, if it makes one,
/// and the record of that entry as a journal appends it: the payload behind its length, and a closed gate.
#[derive(Drop)]
pub struct Judged {
    pub(crate) who: u64,
    pub(crate) granted: Granted,
    pub(crate) made: Option<Made>,
    pub(crate) frame: Frame,
}

impl Model for Judged {
    ghost use Rattle.std.specs.Prelude.{option_map};
    ghost use Rattle.repo_calls.specs.Calls.{granted_seen};
    ghost use Rattle.repo_machine.specs.Judged.{JudgedChange, coded_judged};

    ghost Value = { JudgedChange };

    ghost coded = { coded_judged };

    ghost use Rattle.repo_machine.specs.Made.{made_of, IsReady};

    ghost view = { λ j. record { who = j.who; granted = granted_seen j.granted; made = option_map made_of j.made; frame = j.frame } };

    ghost invariant = { λ j. IsReady j.made };
}

impl Judged {
    // A change that makes no entry.
    pub(crate) fn unchanged(alloc: Global, who: u64, granted: Granted) -> Judged
        ensures { result ≡ record { who = who; granted = granted_seen granted; made = None; frame = [] } }
    {
        Judged {
            who,
            granted,
            made: None,
            frame: Frame::whole(Vec::new(alloc)),
        }
    }

    /// The seat that asked.
    pub fn who(&self) -> u64
        ensures { result ≡ self.now.who }
    {
        self.who
    }

    /// What the change is granted.
    pub fn granted(&self) -> &Granted
        ensures { granted_seen result.now ≡ self.now.granted }
    {
        &self.granted
    }

    /// The record to append, if an entry is made.
    pub fn frame(&self) -> Option<&[u8]>
        ensures frame { option_map (λ bytes. bytes.now) result ≡ option_map (λ body. self.now.frame) self.now.made }
    {
        match self.made {
            Some(_) => Some(self.frame.as_slice()),
            None => None,
        }
    }
}
