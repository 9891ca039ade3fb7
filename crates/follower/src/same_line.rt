//! Whether a log tells the same of two entries.
ghost use Rattle.std.specs.Prelude.{◌≡◌, ◌↔◌, IsTrue};
ghost use Rattle.history_model.specs.History.{Move};
ghost use Rattle.reply_model.specs.Log.{ContentLine, WholeLine, ChangesetLine, BookmarkLine, LandingLine, PolicyLine};
ghost use Rattle.repo_calls.specs.Calls.{line_seen};

use object_id::Id;
use repo_calls::LogEntry;
use repo_path::BookName;

fn is_same_id(one: &Id, other: &Id) -> bool
    ensures { IsTrue result ↔ (one.now ≡ other.now) }
{
    one == other
}

fn are_same_ids(these: &[Id], others: &[Id]) -> bool
    ensures { IsTrue result ↔ (these.now ≡ others.now) }
{
    these == others
}

fn is_same_head(one: &Option<Id>, other: &Option<Id>) -> bool
    ensures { IsTrue result ↔ (one.now ≡ other.now) }
{
    one == other
}

fn is_same_name(one: &BookName, other: &BookName) -> bool
    ensures { IsTrue result ↔ (one.now ≡ other.now) }
{
    one == other
}

fn is_same_caller(one: &Option<BookName>, other: &Option<BookName>) -> bool
    ensures { IsTrue result ↔ (one.now ≡ other.now) }
{
    one == other
}

fn is_same_moment(one: Option<u64>, other: Option<u64>) -> bool
    ensures { IsTrue result ↔ (one ≡ other) }
{
    one == other
}

fn is_content(entry: &LogEntry, id: &Id, size: u64) -> bool
    ensures { IsTrue result ↔ (line_seen entry.now ≡ ContentLine id.now size) }
{
    match entry {
        LogEntry::Content { id: x, size: n } => is_same_id(x, id) && *n == size,
        _ => false,
    }
}

fn is_whole(entry: &LogEntry, id: &Id, size: u64, parts: &[Id]) -> bool
    ensures { IsTrue result ↔ (line_seen entry.now ≡ WholeLine id.now size parts.now) }
{
    match entry {
        LogEntry::Whole {
            id: x,
            size: n,
            parts: xs,
        } => is_same_id(x, id) && *n == size && are_same_ids(xs.as_slice(), parts),
        _ => false,
    }
}

fn is_changeset(entry: &LogEntry, id: &Id) -> bool
    ensures { IsTrue result ↔ (line_seen entry.now ≡ ChangesetLine id.now) }
{
    match entry {
        LogEntry::Changeset { id: x } => is_same_id(x, id),
        _ => false,
    }
}

fn is_policy(entry: &LogEntry, caller: &BookName, rules: u64) -> bool
    ensures { IsTrue result ↔ (line_seen entry.now ≡ PolicyLine caller.now rules) }
{
    match entry {
        LogEntry::Policy {
            caller: name,
            rules: n,
        } => is_same_name(name, caller) && *n == rules,
        _ => false,
    }
}

/// A bookmark's move, as a log tells it.
#[derive(Clone, Copy)]
struct MoveTold<'a> {
    name: &'a BookName,
    from: &'a Option<Id>,
    to: &'a Option<Id>,
    caller: &'a Option<BookName>,
}

fn is_move(entry: &LogEntry, told: &MoveTold<'_>) -> bool
    ensures { IsTrue result ↔ (line_seen entry.now ≡ BookmarkLine (record { name = told.now.name.now; from = told.now.from.now; to = told.now.to.now; caller = told.now.caller.now })) }
{
    match entry {
        LogEntry::Bookmark {
            name,
            from,
            to,
            caller,
        } => {
            is_same_name(name, told.name)
                && is_same_head(from, told.from)
                && is_same_head(to, told.to)
                && is_same_caller(caller, told.caller)
        }
        _ => false,
    }
}

/// A landing, as a log tells it.
#[derive(Clone, Copy)]
struct LandingTold<'a> {
    name: &'a BookName,
    old: &'a Id,
    draft: &'a Id,
    moment: Option<u64>,
    ids: &'a [Id],
    caller: &'a Option<BookName>,
}

fn is_landing(entry: &LogEntry, told: &LandingTold<'_>) -> bool
    ensures { IsTrue result ↔ (line_seen entry.now ≡ LandingLine told.now.caller.now told.now.name.now told.now.old.now told.now.draft.now told.now.moment told.now.ids.now) }
{
    match entry {
        LogEntry::Landing {
            name,
            old,
            draft,
            moment,
            ids,
            caller,
        } => {
            is_same_name(name, told.name)
                && is_same_id(old, told.old)
                && is_same_id(draft, told.draft)
                && is_same_moment(*moment, told.moment)
                && are_same_ids(ids.as_slice(), told.ids)
                && is_same_caller(caller, told.caller)
        }
        _ => false,
    }
}

/// Whether a log tells the same of both.
pub(crate) fn is_same_line(one: &LogEntry, other: &LogEntry) -> bool
    ensures { IsTrue result ↔ (line_seen other.now ≡ line_seen one.now) }
{
    match one {
        LogEntry::Content { id, size } => is_content(other, id, *size),
        LogEntry::Whole { id, size, parts } => is_whole(other, id, *size, parts.as_slice()),
        LogEntry::Changeset { id } => is_changeset(other, id),
        LogEntry::Policy { caller, rules } => is_policy(other, caller, *rules),
        LogEntry::Bookmark {
            name,
            from,
            to,
            caller,
        } => {
            let told = MoveTold {
                name,
                from,
                to,
                caller,
            };
            is_move(other, &told)
        }
        LogEntry::Landing {
            name,
            old,
            draft,
            moment,
            ids,
            caller,
        } => {
            let told = LandingTold {
                name,
                old,
                draft,
                moment: *moment,
                ids: ids.as_slice(),
                caller,
            };
            is_landing(other, &told)
        }
    }
}
