//! The entry of a whole: its parts are read and joined.
ghost use Rattle.std.specs.Prelude.{◌≡◌, ◌≤◌, ℕ, [], drop, false, length, map, Ok, IsSome, IsTrue};
ghost use Rattle.std.specs.List.{All, concat};
ghost use Rattle.disk_model.specs.Meaning.{IsLong};
ghost use Rattle.disk_model.specs.Calls.{Looked};
ghost use Rattle.byte_fields.specs.Bytes.{Id as ModelId};
ghost use Rattle.history_model.specs.History as model;
ghost use Rattle.history_model.specs.Journal.{is_header, payload as payload_of};
ghost use Rattle.history_model.specs.Journal as journal;
ghost use Rattle.history_model.specs.Payload.{payload_body};
ghost use Rattle.reply_model.specs.Legal.{IsLegal};
ghost use Rattle.repo_journal.specs.Groups.{no_records};
ghost use Rattle.repo_machine.specs.Indexes.{StandsAt};
ghost use Rattle.recovery.specs.Joining.{EntersWhole, JoinsParts};
ghost use Rattle.recovery.specs.ReplayFaults.{is_read_fault};
ghost use Rattle.recovery.specs.Settling.{Spares};

use crate::enter::{NO_SEAT, enter_judged, makes_payload};
use crate::pieces::{pieces_of, total};
use crate::replay_fault::ReplayFault;
use blob_disk::Disk;
use content_pieces::joined_id;
use content_table::Part;
use object_id::Id;
use repo_journal::{Journal, MOST_CAPACITY, Opening};
use repo_machine::{Joined, Machine};
use std::alloc::Global;

// Where the ids of the parts stand in a payload: behind the mark, the id, the length and the count.
const IDS_AT: usize = 43;

/// Enters a whole of these parts, if it is the one that the machine makes of what they have on the disk.
pub(crate) fn enter_whole<D: Disk>(
    alloc: Global,
    disk: &mut D,
    machine: &mut Machine,
    ids: Vec<Id>,
    payload: &[u8],
) -> Result<(), ReplayFault>
    requires decoded { (x : ModelId) × (n : ℕ) × (payload_body payload.now ≡ Ok (model.Whole x n ids.items)) × (payload.now ≡ payload_of (model.Whole x n ids.items) []) }
    requires limits { IsTrue (is_header machine.old.header) }
    requires legal { IsLegal machine.old.header machine.old.history }
    requires long { IsLong (D.meaning disk.old).reads (journal.size machine.old.history) }
    ensures enters { EntersWhole (D.meaning disk.old) machine.old.header machine.old.history payload.now (concat ids.items) result machine.new.history }
    ensures header { machine.new.header ≡ machine.old.header }
    ensures legal { IsLegal machine.new.header machine.new.history }
    ensures looked { Looked (D.meaning disk.old) (D.meaning disk.new) }
    ensures spares { Spares (D.meaning disk.old) (D.meaning disk.new) (is_read_fault result) }
    ensures quiet { IsSome (D.meaning disk.old).quiet → is_read_fault result ≡ false }
{
    let parts = machine.judge_pieces(alloc, ids_in(payload))?;
    let whole = join(alloc, disk, machine, ids, parts.as_slice())?;
    let judged = machine.judge_whole(alloc, NO_SEAT, whole)?;
    if !makes_payload(&judged, payload) {
        return Err(ReplayFault::BadPayload);
    }
    enter_judged(machine, judged)
}

// The ids of the parts in a payload, one behind another.
fn ids_in(payload: &[u8]) -> &[u8]
    requires { IDS_AT ≤ length payload.now }
    ensures { result.now ≡ drop IDS_AT payload.now }
{
    &payload[IDS_AT..]
}

// What is read of contents of the machine, joined.
fn join<D: Disk>(
    alloc: Global,
    disk: &mut D,
    machine: &Machine,
    ids: Vec<Id>,
    parts: &[Part],
) -> Result<Joined, ReplayFault>
    requires ids { map (λ p. p.id) parts.now ≡ ids.items }
    requires few { length parts.now ≤ 64 }
    requires places { All (λ p. StandsAt machine.now.history p.id p.place) parts.now }
    requires limits { IsTrue (is_header machine.now.header) }
    requires legal { IsLegal machine.now.header machine.now.history }
    requires long { IsLong (D.meaning disk.old).reads (journal.size machine.now.history) }
    ensures joins { JoinsParts (D.meaning disk.old) machine.now.history ids.items result }
    ensures looked { Looked (D.meaning disk.old) (D.meaning disk.new) }
    ensures spares { Spares (D.meaning disk.old) (D.meaning disk.new) (is_read_fault result) }
    ensures quiet { IsSome (D.meaning disk.old).quiet → is_read_fault result ≡ false }
{
    let pieces = pieces_of(alloc, parts)?;
    let journal = entered_journal(alloc, machine);
    let id = joined_id(&journal, disk, pieces.as_slice())?;
    Ok(Joined {
        parts: ids,
        id,
        length: total(parts),
    })
}

// The journal as far as its records were entered. It is only read, so how long it may become doesn't matter.
fn entered_journal(alloc: Global, machine: &Machine) -> Journal
    requires limits { IsTrue (is_header machine.now.header) }
    requires legal { IsLegal machine.now.header machine.now.history }
    ensures size { result.size ≡ journal.size machine.now.history }
    ensures settled { result.pending ≡ no_records }
{
    let opening = Opening {
        moment: 0,
        length: machine.history_length(),
        faults: 0,
    };
    Journal::new(alloc, MOST_CAPACITY, machine.size(), opening)
}
