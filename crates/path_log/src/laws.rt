//! Laws of what is logged at a path, each the contract of a function that does nothing.
ghost use Rattle.std.specs.Prelude.{◌≡◌, ◌≤◌, ℕ, None, Some, Option, List, [], filter_map, reverse, is_some, IsTrue, Bool};
ghost use Rattle.std.specs.Option.{option_map_or};
ghost use Rattle.changeset_model.specs.Path.{Path};
ghost use Rattle.changeset_model.specs.Changeset.{File};
ghost use Rattle.history_model.specs.History.{Known};
ghost use Rattle.history_model.specs.Chain.{changesets};
ghost use Rattle.history_model.specs.Past.{Past, Begin, past_on};
ghost use Rattle.history_model.specs.Tree.{tree, tree_of};
ghost use Rattle.manifest_model.specs.Unode.{linknode_of, unode};
ghost use Rattle.manifest_model.specs.Deleted.{deleted_at, is_logged, path_log};
ghost use Rattle.path_log.specs.Line.{IsEarlier, last_logged, logged};
ghost use Rattle.path_log.specs.Pasts.{TellsPasts, id_in, last_past, log_from};

use crate::lines::Lines;

/// The last that is logged is on the line: it isn't above the number that was asked of, and may be asked of too.
pub fn links_go_back<N: Lines>()
    ensures { (lines : N) (p : Path) (n m : ℕ) → IsTrue (N.may_be_asked lines n) → last_logged (N.parent_of lines) (N.is_logged lines p) n ≡ Some m → (m ≤ n) × IsTrue (N.may_be_asked lines m) }
{}

/// The log of a path is the last changeset that is logged there and the log of that one's first parent. Where a file is at
/// the path there is such a changeset, and where none is it is the one that took the last file away; if none did, nothing
/// is logged.
pub fn log_goes_by_links()
    ensures log { (past : Past) (p : Path) → path_log past p ≡ log_from (last_past past p) p }
    ensures file { (past : Past) (p : Path) (f : File) → tree_of past p ≡ Some f → IsTrue (is_some (id_in (last_past past p))) }
    ensures deleted { (past : Past) (p : Path) → tree_of past p ≡ None → deleted_at past p ≡ id_in (last_past past p) }
    ensures nothing { (past : Past) (p : Path) → tree_of past p ≡ None → deleted_at past p ≡ None → path_log past p ≡ [] }
{}

/// Where no changeset on the line has two parents, a file's last that is logged is the one that made the file's unode.
pub fn link_is_of_the_unode()
    ensures { (ks : List Known) (p : Path) (f : File) → tree (changesets (reverse ks)) p ≡ Some f → id_in (last_past (past_on ks) p) ≡ Some (linknode_of (unode ks p)) }
{}

/// Where numbers stand for changesets with their pasts, what is logged by numbers is what is logged by pasts.
pub fn numbers_tell_the_log()
    ensures log { (asked : ℕ → Bool) (parent : ℕ → Option ℕ) (at : ℕ → Past) (p : Path) (n : ℕ) → IsEarlier asked parent → TellsPasts asked parent at → IsTrue (asked n) →
        filter_map (λ m. id_in (at m)) (logged parent (λ m. is_logged (at m) p) n) ≡ path_log (at n) p }
    ensures last { (asked : ℕ → Bool) (parent : ℕ → Option ℕ) (at : ℕ → Past) (p : Path) (n : ℕ) → IsEarlier asked parent → TellsPasts asked parent at → IsTrue (asked n) →
        option_map_or at (last_logged parent (λ m. is_logged (at m) p) n) Begin ≡ last_past (at n) p }
{}
