//! The parts of an entry, each by its name.
ghost use Rattle.std.specs.Prelude.{◌≡◌, ◌↔◌, ◌<◌, ◌^◌, ℕ, List, None, Some, Option, option_map, map, length, IfOk, IfSome, IsTrue};
ghost use Rattle.std.specs.List.{AllByRecursion};
ghost use Rattle.hex.specs.Hex.{encode_lower};
ghost use Rattle.serde_json.specs.Data.{Data, string, number, unsigned, array};
ghost use Rattle.serde_json.specs.Find.{get};
ghost use Rattle.serde_json.specs.View.{view, items_of};
ghost use Rattle.byte_fields.specs.Bytes as bytes;
ghost use Rattle.history_model.specs.Bookmark.{is_name};
ghost use Rattle.repo_text.specs.Spelling.{id_data, maybe_id_data};
ghost use Rattle.page_reader.specs.Pages.{IsId};
ghost use Rattle.page_reader.specs.Values.{ids_data, OkAnd, Finds};

use crate::page_fault::PageFault;
use hex::FromHex;
use object_id::Id;
use repo_path::{BookName, NameFault};
use serde_json::Value;
use std::alloc::Global;

/// The text of this name.
pub(crate) fn text_at<'a>(value: &'a Value, name: &str) -> Result<&'a str, PageFault>
    ensures { (text : List ℕ) → get name.now (view value.now) ≡ Some (string text) → OkAnd result (λ found. found.now ≡ text) }
{
    match value.get(name).and_then(Value::as_str) {
        Some(text) => Ok(text),
        None => Err(PageFault::BadPart),
    }
}

/// The number of this name.
pub(crate) fn number_at(value: &Value, name: &str) -> Result<u64, PageFault>
    ensures { (n : ℕ) → get name.now (view value.now) ≡ Some (number (unsigned n)) → OkAnd result (λ found. found ≡ n) }
{
    match value.get(name).and_then(Value::as_u64) {
        Some(number) => Ok(number),
        None => Err(PageFault::BadPart),
    }
}

/// The number of this name, where there is one.
pub(crate) fn maybe_number_at(value: &Value, name: &str) -> Result<Option<u64>, PageFault>
    ensures found { (n : Option ℕ) → get name.now (view value.now) ≡ option_map (λ m. number (unsigned m)) n → OkAnd result (λ found. found ≡ n) }
    ensures range { IfOk result (λ found. IfSome found (λ n. n < 2 ^ 64)) }
{
    match value.get(name) {
        None => Ok(None),
        Some(_) => Ok(Some(number_at(value, name)?)),
    }
}

/// The items of the list of this name.
pub(crate) fn items_at<'a>(value: &'a Value, name: &str) -> Result<&'a [Value], PageFault>
    ensures { (ds : List Data) → get name.now (view value.now) ≡ Some (array (items_of ds)) → OkAnd result (λ found. map view found.now ≡ ds) }
{
    let Some(part) = value.get(name) else {
        return Err(PageFault::BadPart);
    };
    match part.as_array() {
        Some(items) => Ok(items.as_slice()),
        None => Err(PageFault::BadPart),
    }
}

/// Whether the text is this word.
pub(crate) fn is_word(text: &str, word: &str) -> bool
    ensures { IsTrue result ↔ (text.now ≡ word.now) }
{
    text == word
}

// An id keeps its rule.
fn keep_the_rule(id: &Id)
    ensures { IsId id.now }
{
    let _bytes = id.as_bytes();
}

fn id_of(text: &str) -> Result<Id, PageFault>
    ensures found { (x : bytes.Id) → IsId x → text.now ≡ encode_lower x → OkAnd result (λ found. found ≡ x) }
    ensures rule { IfOk result IsId }
{
    match <[u8; 32] as FromHex>::from_hex(text) {
        Ok(bytes) => {
            let id = Id::from_bytes(bytes);
            keep_the_rule(&id);
            Ok(id)
        }
        Err(_) => Err(PageFault::BadPart),
    }
}

/// The id of this name.
pub(crate) fn id_at(value: &Value, name: &str) -> Result<Id, PageFault>
    ensures found { (x : bytes.Id) → IsId x → get name.now (view value.now) ≡ Some (id_data x) → OkAnd result (λ found. found ≡ x) }
    ensures rule { IfOk result IsId }
{
    id_of(text_at(value, name)?)
}

/// The id of this name, or none where that is null.
pub(crate) fn maybe_id_at(value: &Value, name: &str) -> Result<Option<Id>, PageFault>
    ensures found { (x : Option bytes.Id) → IfSome x IsId → get name.now (view value.now) ≡ Some (maybe_id_data x) → OkAnd result (λ found. found ≡ x) }
    ensures rule { IfOk result (λ found. IfSome found IsId) }
{
    match value.get(name) {
        Some(part) if part.is_null() => Ok(None),
        _ => Ok(Some(id_at(value, name)?)),
    }
}

/// The name of a bookmark, or of a caller, under this name.
pub(crate) fn name_at(alloc: Global, value: &Value, name: &str) -> Result<BookName, PageFault>
    ensures found { (text : List ℕ) → IsTrue (is_name text) → get name.now (view value.now) ≡ Some (string text) → Finds result (λ found. found ≡ text) }
    ensures rule { IfOk result (λ found. IsTrue (is_name found)) }
{
    let text = text_at(value, name)?;
    match BookName::parse(alloc, text) {
        Ok(name) => Ok(name),
        Err(NameFault::Memory) => Err(PageFault::Memory),
        Err(NameFault::BadName { .. }) => Err(PageFault::BadPart),
    }
}

/// The name under this name, where there is one.
pub(crate) fn maybe_name_at(
    alloc: Global,
    value: &Value,
    name: &str,
) -> Result<Option<BookName>, PageFault>
    ensures found { (text : Option (List ℕ)) → IfSome text (λ t. IsTrue (is_name t)) → get name.now (view value.now) ≡ option_map (λ t. string t) text → Finds result (λ found. found ≡ text) }
    ensures rule { IfOk result (λ found. IfSome found (λ n. IsTrue (is_name n))) }
{
    match value.get(name) {
        None => Ok(None),
        Some(_) => Ok(Some(name_at(alloc, value, name)?)),
    }
}

/// The ids of this name.
pub(crate) fn ids_at(alloc: Global, value: &Value, name: &str) -> Result<Vec<Id>, PageFault>
    ensures found { (xs : List bytes.Id) → AllByRecursion IsId xs → get name.now (view value.now) ≡ Some (ids_data xs) → Finds result (λ found. found.items ≡ xs) }
    ensures rule { IfOk result (λ found. AllByRecursion IsId found.items) }
{
    ids_of(alloc, items_at(value, name)?)
}

fn ids_of(alloc: Global, values: &[Value]) -> Result<Vec<Id>, PageFault>
    ensures found { (xs : List bytes.Id) → AllByRecursion IsId xs → map view values.now ≡ map id_data xs → Finds result (λ found. found.items ≡ xs) }
    ensures rule { IfOk result (λ found. AllByRecursion IsId found.items) }
{
    let mut ids = Vec::with_capacity(alloc, values.len())?;
    for value in values {
        ids.push(id_from(value)?)?;
    }
    Ok(ids)
}

fn id_from(value: &Value) -> Result<Id, PageFault>
    ensures found { (x : bytes.Id) → IsId x → view value.now ≡ id_data x → OkAnd result (λ found. found ≡ x) }
    ensures rule { IfOk result IsId }
{
    match value.as_str() {
        Some(text) => id_of(text),
        None => Err(PageFault::BadPart),
    }
}
