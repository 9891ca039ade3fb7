//! Planned landings. All memory was taken by `plan` and `reserve`.
ghost use Rattle.std.specs.Prelude.{◌≡◌, ℕ, List, Option, Some};
ghost use Rattle.history_model.specs.History.{Land};
ghost use Rattle.repo_machine.specs.Held.{HasRoom};
ghost use Rattle.repo_machine.specs.Plans.{WasPlanned, frame_size, landing_in};
ghost use Rattle.repo_state.specs.Cores.{ExchangesSo};
ghost use Rattle.repo_state.specs.Exchanging.{Exchanges};
ghost use Rattle.repo_state.specs.State.{HasRecordRoom, IsSound, LeavesNow, reach};
ghost use Rattle.repo_state.specs.Trees.{LandsSo};

use crate::exchanged::Exchanged;
use crate::state::RepoState;
use blob_disk::Disk;
use repo_calls::{Granted, Refusal};
use repo_machine::Rebased;

impl<D: Disk> RepoState<D> {
    /// Lands for the seat `who` what was planned here earlier, if the bookmark has the planned head and the policy that is
    /// held by now allows it, and for which room was made. Its entry waits to be sealed. It takes no memory, and the disk
    /// isn't asked. Where the disk failed so that nothing more is stored, it is refused whatever the head is.
    pub fn exchange(&mut self, who: u64, rebased: Rebased) -> Exchanged
        requires planned { WasPlanned self.old.history rebased }
        requires room { (caller : Option (List ℕ)) → HasRoom self.old.room (Some (Land (landing_in rebased caller))) }
        requires record_room { HasRecordRoom self.old (frame_size rebased) }
        ensures exchanged { Exchanges self.old.header self.old.history who rebased result self.new.history }
        ensures header { self.new.header ≡ self.old.header }
        ensures opening { self.new.opening ≡ self.old.opening }
        ensures table { self.new.table ≡ self.old.table }
        ensures sealed { self.new.sealed ≡ self.old.sealed }
        ensures disk { self.new.disk ≡ self.old.disk }
        ensures sound { IsSound self.new.opening self.new.history self.new.sealed (reach self.new) self.new.disk }
        ensures left { self.new.left ≡ self.old.left }
        ensures leaves_now { LeavesNow self.new }

        // Where the stack lands, the new head's tree has what it sets, and else what the old head's has, in which no path that
        // the stack touches was changed since the root.
        ensures lands { LandsSo rebased.draft result self.old.history self.new.history }

        // It is these steps of the repository of many seats.
        ensures core { ExchangesSo self.old.header self.old.history self.old.sealed who rebased self.new.history }
    {
        if self.machine.down() {
            return Exchanged::Refused(Refusal::Down);
        }
        let found = self.machine.head(rebased.name());
        if found != Some(rebased.old()) {
            return Exchanged::HeadMoved { found };
        }
        let judged = match self.machine.judge_rebased(who, rebased) {
            Ok(judged) => judged,
            Err(refusal) => return Exchanged::Refused(refusal),
        };
        let Some(frame) = judged.frame() else {
            unreachable!();
        };
        self.journal.hold(frame);
        match self.machine.admit(judged) {
            Granted::Landing(landed) => Exchanged::Landed(landed),
            _ => unreachable!(),
        }
    }
}
