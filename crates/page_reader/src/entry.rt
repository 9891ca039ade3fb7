//! What a page tells of one entry.
ghost use Rattle.std.specs.Prelude.{◌≡◌, ℕ, Option, List, None, IfOk, IfSome, IsTrue, ◌<◌, ◌^◌};
ghost use Rattle.std.specs.List.{AllByRecursion};
ghost use Rattle.serde_json.specs.View.{view};
ghost use Rattle.byte_fields.specs.Bytes as bytes;
ghost use Rattle.history_model.specs.Bookmark.{is_name};
ghost use Rattle.history_model.specs.History.{Move};
ghost use Rattle.reply_model.specs.Log.{LogLine, ContentLine, WholeLine, ChangesetLine, BookmarkLine, LandingLine, PolicyLine};
ghost use Rattle.repo_calls.specs.Calls.{line_seen};
ghost use Rattle.page_reader.specs.Pages.{IsTold, IsId};
ghost use Rattle.page_reader.specs.Values.{line_data, landing_data, Finds, OkAnd};

use crate::page_fault::PageFault;
use crate::parts::{
    id_at, ids_at, is_word, maybe_id_at, maybe_name_at, maybe_number_at, name_at, number_at,
    text_at,
};
use repo_calls::LogEntry;
use serde_json::Value;
use std::alloc::Global;

/// What the value tells of an entry. Its number isn't looked at.
pub(crate) fn entry_of(alloc: Global, value: &Value) -> Result<LogEntry, PageFault>
    ensures found { (n : ℕ) (line : LogLine) → IsTold line → view value.now ≡ line_data n line → Finds result (λ entry. line_seen entry ≡ line) }
    ensures told { IfOk result (λ entry. IsTold (line_seen entry)) }
{
    let kind = text_at(value, "kind")?;
    if is_word(kind, "content") {
        content_of(value)
    } else if is_word(kind, "whole") {
        whole_of(alloc, value)
    } else if is_word(kind, "changeset") {
        changeset_of(value)
    } else if is_word(kind, "bookmark") {
        bookmark_of(alloc, value)
    } else if is_word(kind, "landing") {
        landing_of(alloc, value)
    } else if is_word(kind, "policy") {
        policy_of(alloc, value)
    } else {
        Err(PageFault::BadPart)
    }
}

fn content_of(value: &Value) -> Result<LogEntry, PageFault>
    ensures found { (n : ℕ) (x : bytes.Id) (size : ℕ) → IsId x → view value.now ≡ line_data n (ContentLine x size) → OkAnd result (λ entry. line_seen entry ≡ ContentLine x size) }
    ensures told { IfOk result (λ entry. IsTold (line_seen entry)) }
{
    let id = id_at(value, "id")?;
    let size = number_at(value, "size")?;
    Ok(LogEntry::Content { id, size })
}

fn whole_of(alloc: Global, value: &Value) -> Result<LogEntry, PageFault>
    ensures found { (n : ℕ) (x : bytes.Id) (size : ℕ) (parts : List bytes.Id) → IsTold (WholeLine x size parts) → view value.now ≡ line_data n (WholeLine x size parts) → Finds result (λ entry. line_seen entry ≡ WholeLine x size parts) }
    ensures told { IfOk result (λ entry. IsTold (line_seen entry)) }
{
    let id = id_at(value, "id")?;
    let parts = ids_at(alloc, value, "parts")?;
    let size = number_at(value, "size")?;
    Ok(LogEntry::Whole { id, size, parts })
}

fn changeset_of(value: &Value) -> Result<LogEntry, PageFault>
    ensures found { (n : ℕ) (x : bytes.Id) → IsId x → view value.now ≡ line_data n (ChangesetLine x) → OkAnd result (λ entry. line_seen entry ≡ ChangesetLine x) }
    ensures told { IfOk result (λ entry. IsTold (line_seen entry)) }
{
    let id = id_at(value, "id")?;
    Ok(LogEntry::Changeset { id })
}

fn bookmark_of(alloc: Global, value: &Value) -> Result<LogEntry, PageFault>
    ensures found { (n : ℕ) (move : Move) → IsTold (BookmarkLine move) → view value.now ≡ line_data n (BookmarkLine move) → Finds result (λ entry. line_seen entry ≡ BookmarkLine move) }
    ensures told { IfOk result (λ entry. IsTold (line_seen entry)) }
{
    let caller = maybe_name_at(alloc, value, "caller")?;
    let from = maybe_id_at(value, "from")?;
    let name = name_at(alloc, value, "name")?;
    let to = maybe_id_at(value, "to")?;
    Ok(LogEntry::Bookmark {
        name,
        from,
        to,
        caller,
    })
}

fn landing_of(alloc: Global, value: &Value) -> Result<LogEntry, PageFault>
    ensures found { (n : ℕ) (caller : Option (List ℕ)) (name : List ℕ) (old draft : bytes.Id) (moment : Option ℕ) (ids : List bytes.Id) → IsTold (LandingLine caller name old draft moment ids) → view value.now ≡ landing_data n caller name old draft moment ids → Finds result (λ entry. line_seen entry ≡ LandingLine caller name old draft moment ids) }
    ensures told { IfOk result (λ entry. IsTold (line_seen entry)) }
{
    let caller = maybe_name_at(alloc, value, "caller")?;
    let draft = id_at(value, "draft")?;
    let ids = ids_at(alloc, value, "ids")?;
    let moment = maybe_number_at(value, "moment")?;
    let name = name_at(alloc, value, "name")?;
    let old = id_at(value, "old")?;
    Ok(LogEntry::Landing {
        name,
        old,
        draft,
        moment,
        ids,
        caller,
    })
}

fn policy_of(alloc: Global, value: &Value) -> Result<LogEntry, PageFault>
    ensures found { (n : ℕ) (caller : List ℕ) (rules : ℕ) → IsTold (PolicyLine caller rules) → view value.now ≡ line_data n (PolicyLine caller rules) → Finds result (λ entry. line_seen entry ≡ PolicyLine caller rules) }
    ensures told { IfOk result (λ entry. IsTold (line_seen entry)) }
{
    let caller = name_at(alloc, value, "caller")?;
    let rules = number_at(value, "rules")?;
    Ok(LogEntry::Policy { caller, rules })
}
