//! Judging any change.
ghost use Rattle.std.specs.Prelude.{◌≡◌, ◌≤◌, IfOk, IfErr};
ghost use Rattle.reply_model.specs.Legal.{IsLegal};
ghost use Rattle.repo_calls.specs.Calls.{call_seen};
ghost use Rattle.repo_machine.specs.Asked.{JudgesCall, RefusesCall};
ghost use Rattle.repo_machine.specs.Found.{IsFoundFor};

use crate::found::Found;
use crate::judged::Judged;
use crate::machine::Machine;
use crate::prepared::prepare;
use repo_calls::{Ask, Refusal};
use std::alloc::Global;

impl Machine {
    /// Judges a change that the seat `who` asks for at the history as it stands, with what was found for it: what it is
    /// granted, and the entry that it makes with its framed record, if it makes one. It adds nothing, and makes room for that
    /// entry and for one fault after it.
    pub fn judge(
        &mut self,
        alloc: Global,
        who: u64,
        ask: &Ask,
        found: Found,
    ) -> Result<Judged, Refusal>
        requires found { IsFoundFor self.old.header self.old.history (call_seen ask.now) found }
        ensures ok { IfOk result (JudgesCall self.old.header self.old.history self.new.room who (call_seen ask.now)) }
        ensures err { IfErr result (RefusesCall self.old.header self.old.history (call_seen ask.now)) }
        ensures header { self.new.header ≡ self.old.header }
        ensures history { self.new.history ≡ self.old.history }
        ensures keeps { self.old.room.entries ≤ self.new.room.entries }
        ensures legal { IsLegal self.old.header self.old.history }
    {
        self.check_up()?;
        let prepared = prepare(alloc, ask)?;
        self.judge_prepared(alloc, who, prepared, found)
    }
}
