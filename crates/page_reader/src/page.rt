//! A page of the log.
ghost use Rattle.std.specs.Prelude.{◌≡◌, ◌↔◌, ◌<◌, ◌≤◌, ◌^◌, ℕ, List, map, IfOk, IfErr, IsTrue, length, ◌≢◌};
ghost use Rattle.std.specs.List.{AllByRecursion};
ghost use Rattle.serde_json.specs.View.{view};
ghost use Rattle.serde_json.specs.Read.{read};
ghost use Rattle.reply_model.specs.Log.{LogLine};
ghost use Rattle.repo_calls.specs.Calls.{lines_seen};
ghost use Rattle.page_reader.specs.declared.page_fault.PageFault.TheVariants.{Memory};
ghost use Rattle.page_reader.specs.Pages.{IsTold, IsPage, IsNoPage, Counts};
ghost use Rattle.page_reader.specs.Values.{lines_data, page_data, Finds};

use crate::entry::entry_of;
use crate::page_fault::PageFault;
use crate::parts::{items_at, number_at};
use repo_calls::{LogEntry, LogPage};
use repo_text::log::log_body;
use serde_json::Value;
use std::alloc::Global;

/// The most entries of a page.
const MOST_ENTRIES: usize = 100;

/// The page that the text tells, whose first entry has the number `from`: 1 to 100 entries, all of them below its
/// total; or none, and its total isn't above `from`. It has the one spelling that a server writes. However deep its
/// JSON nests, no more than 127 arrays and objects are entered.
pub fn read_page(alloc: Global, from: u64, text: &[u8]) -> Result<LogPage, PageFault>
    ensures page { IfOk result (λ page. IsPage from text.now (lines_seen page.entries.items) page.total) }
    // Each page is read, unless memory runs out.
    ensures found { (lines : List LogLine) (total : ℕ) → IsPage from text.now lines total → Finds result (λ page. (lines_seen page.entries.items ≡ lines) × (page.total ≡ total)) }
    ensures no_page { IfErr result (λ fault. fault ≢ Memory → IsNoPage from text.now) }
{
    page_spelled(alloc, from, text)
}

fn page_spelled(alloc: Global, from: u64, text: &[u8]) -> Result<LogPage, PageFault>
    ensures page { IfOk result (λ page. IsPage from text.now (lines_seen page.entries.items) page.total) }
    ensures found { (lines : List LogLine) (total : ℕ) → IsPage from text.now lines total → Finds result (λ page. (lines_seen page.entries.items ≡ lines) × (page.total ≡ total)) }
{
    let page = page_told(alloc, text)?;
    if !counts(from, page.entries.len(), page.total) {
        return Err(PageFault::BadCount);
    }
    let again = log_body(alloc, from, page.entries.as_slice(), page.total)?;
    if is_same(again.as_slice(), text) {
        Ok(page)
    } else {
        Err(PageFault::OtherText)
    }
}

fn is_same(one: &[u8], other: &[u8]) -> bool
    ensures { IsTrue result ↔ (one.now ≡ other.now) }
{
    one == other
}

fn counts(from: u64, count: usize, total: u64) -> bool
    ensures { IsTrue result ↔ Counts from count total }
{
    if count == 0 {
        return total <= from;
    }
    count <= MOST_ENTRIES && from <= total && count as u64 <= total - from
}

// What the JSON of the text tells, whatever else it has.
fn page_told(alloc: Global, text: &[u8]) -> Result<LogPage, PageFault>
    ensures found { (from : ℕ) (lines : List LogLine) (total : ℕ) → from < 2 ^ 64 → IsPage from text.now lines total → Finds result (λ page. (lines_seen page.entries.items ≡ lines) × (page.total ≡ total)) }
    ensures told { IfOk result (λ page. AllByRecursion IsTold (lines_seen page.entries.items)) }
    ensures small { IfOk result (λ page. page.total < 2 ^ 64) }
{
    match Value::from_slice(alloc, text) {
        Ok(value) => page_of(alloc, &value),
        Err(e) if e.is_memory() => Err(PageFault::Memory),
        Err(_) => Err(PageFault::BadJson),
    }
}

fn page_of(alloc: Global, value: &Value) -> Result<LogPage, PageFault>
    ensures found { (from : ℕ) (lines : List LogLine) (total : ℕ) → AllByRecursion IsTold lines → view value.now ≡ page_data from lines total → Finds result (λ page. (lines_seen page.entries.items ≡ lines) × (page.total ≡ total)) }
    ensures told { IfOk result (λ page. AllByRecursion IsTold (lines_seen page.entries.items)) }
    ensures small { IfOk result (λ page. page.total < 2 ^ 64) }
{
    let total = number_at(value, "total")?;
    let entries = entries_of(alloc, items_at(value, "entries")?)?;
    Ok(LogPage { entries, total })
}

fn entries_of(alloc: Global, values: &[Value]) -> Result<Vec<LogEntry>, PageFault>
    ensures found { (from : ℕ) (lines : List LogLine) → AllByRecursion IsTold lines → map view values.now ≡ lines_data from lines → Finds result (λ entries. lines_seen entries.items ≡ lines) }
    ensures told { IfOk result (λ entries. AllByRecursion IsTold (lines_seen entries.items)) }
{
    let mut entries = Vec::with_capacity(alloc, values.len())?;
    for value in values {
        entries.push(entry_of(alloc, value)?)?;
    }
    Ok(entries)
}
