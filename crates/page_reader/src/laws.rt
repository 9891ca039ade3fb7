//! Laws of pages.
ghost use Rattle.std.specs.Prelude.{◌≡◌, ◌<◌, ◌^◌, ℕ, List, Some, length, IsUtf8};
ghost use Rattle.std.specs.List.{AllByRecursion};
ghost use Rattle.serde_json.specs.Read.{read};
ghost use Rattle.reply_model.specs.Log.{LogLine};
ghost use Rattle.repo_calls.specs.Calls.{lines_seen};
ghost use Rattle.page_reader.specs.Pages.{IsTold, IsPage, Counts};
ghost use Rattle.page_reader.specs.Values.{page_data, Finds};

use crate::page::read_page;
use crate::page_fault::PageFault;
use repo_calls::{LogEntry, LogPage};
use repo_text::log::log_body;
use std::alloc::Global;

/// A page's text is JSON (RFC 8259) in UTF-8, with its code, its entries and its total as members.
pub fn pages_are_json()
    ensures utf8 { (from : ℕ) (text : List ℕ) (lines : List LogLine) (total : ℕ) → from < 2 ^ 64 → IsPage from text lines total → IsUtf8 text }
    ensures value { (from : ℕ) (text : List ℕ) (lines : List LogLine) (total : ℕ) → from < 2 ^ 64 → IsPage from text lines total → read text ≡ Some (page_data from lines total) }
{}

/// What a server writes of these entries is read back as the same page, unless memory runs out.
pub fn read_back(
    alloc: Global,
    from: u64,
    entries: &[LogEntry],
    total: u64,
) -> Result<LogPage, PageFault>
    requires told { AllByRecursion IsTold (lines_seen entries.now) }
    requires counts { Counts from (length entries.now) total }
    ensures { Finds result (λ page. (lines_seen page.entries.items ≡ lines_seen entries.now) × (page.total ≡ total)) }
{
    let text = log_body(alloc, from, entries, total)?;
    read_page(alloc, from, text.as_slice())
}
