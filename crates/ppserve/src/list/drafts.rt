//! Drafts: a list as it is written in JSON, before it is validated.
//!
//! A list is read in two steps. A draft has the members of the JSON value with their types and nothing more: names are
//! texts, a budget is any number. So refusal 2, for the shape of the value, is decided here, and all later refusals in
//! `validation.rt`, which needs no JSON. Each function reads one member, or the items of one array, and its contract names
//! the part of the specification that it computes (`Drafting`); the law `shape_decides` ties these to the shape of a list.
//! A draft owns copies of its texts, so that the JSON value is freed before the list is validated.
ghost use Rattle.std.specs.Prelude.{◌≡◌, Some, None, IfOk, IfErr, codes, map, option_and_then, ◌<◌, IfSome};
ghost use Rattle.serde_json.specs.Find.{as_str};
ghost use Rattle.serde_json.specs.View.{view, members_view, items_view};
ghost use Rattle.ppserve.specs.code.Refusals.{RefusedFor};
ghost use Rattle.ppserve.specs.Shape as shape;
ghost use Rattle.ppserve.specs.Drafting as drafting;

use crate::list::ListFault;
use pptext::Sequence;
use ppunit::{OwnedText, OwnedTexts};
use serde_json::{Map, Value};
use std::alloc::Global;
use std::marker::Model;

/// The draft of a file.
#[derive(Drop)]
pub(super) struct DraftFile {
    pub(super) name: OwnedText,
    pub(super) content: Sequence<u8>,
}

impl Model for DraftFile {
    ghost use Rattle.ppserve.specs.Drafts.{DraftFile};

    ghost Value = { DraftFile };

    ghost view = { λ f. record { name = f.name; content = f.content } };
}

/// The draft of a directory that is searched, or of a file that is read first.
#[derive(Drop)]
pub(super) struct DraftPath {
    pub(super) name: OwnedText,
    pub(super) shown: Option<OwnedText>,
    pub(super) system: bool,
}

impl Model for DraftPath {
    ghost use Rattle.ppserve.specs.Drafts.{DraftPath};

    ghost Value = { DraftPath };

    ghost view = { λ p. record { name = p.name; shown = p.shown; system = p.system } };
}

/// The drafts of directories, or of files that are read first.
pub(super) type DraftPaths = Sequence<DraftPath>;

/// The draft of a unit, with the name of its file.
#[derive(Drop)]
pub(super) struct DraftUnit {
    pub(super) file: OwnedText,
    pub(super) shown: Option<OwnedText>,
    pub(super) defines: OwnedTexts,
    pub(super) first: DraftPaths,
    pub(super) search: DraftPaths,
}

impl Model for DraftUnit {
    ghost use Rattle.ppserve.specs.Drafts.{DraftUnit};

    ghost Value = { DraftUnit };

    ghost view = { λ u. record {
      file = u.file;
      shown = u.shown;
      defines = u.defines;
      first = u.first;
      search = u.search;
    } };
}

/// How a list's budget is written.
#[derive(Drop)]
pub(super) enum WrittenBudget {
    /// The list has no budget.
    Missing,
    /// An unsigned integer of 64 bits.
    Integer(u64),
    /// Another number: a negative one, a fraction, or one that is too large.
    Other,
}

/// The draft of a list's budget.
#[derive(Drop)]
pub(super) struct DraftBudget {
    pub(super) written: WrittenBudget,
}

impl Model for DraftBudget {
    ghost use Rattle.ppserve.specs.Drafts as drafts;
    ghost use Rattle.ppserve.specs.declared.list.drafts.WrittenBudget.TheVariants.{Missing, Integer, Other};

    ghost Value = { drafts.DraftBudget };

    ghost view = { λ b. elim b.written [ Missing ↦ drafts.Missing | Integer n ↦ drafts.Integer n | Other ↦ drafts.Other ] };
}

/// The draft of a setting, with the name of the profile.
#[derive(Drop)]
pub(super) struct DraftSetting {
    pub(super) profile: OwnedText,
    pub(super) budget: DraftBudget,
    pub(super) date: OwnedText,
    pub(super) time: OwnedText,
    pub(super) search: DraftPaths,
}

impl Model for DraftSetting {
    ghost use Rattle.ppserve.specs.Drafts.{DraftSetting};

    ghost Value = { DraftSetting };

    ghost view = { λ s. record {
      profile = s.profile;
      budget = s.budget;
      date = s.date;
      time = s.time;
      search = s.search;
    } };
}

/// The draft of a list.
#[derive(Drop)]
pub(super) struct Draft {
    pub(super) setting: DraftSetting,
    pub(super) files: Sequence<DraftFile>,
    pub(super) units: Sequence<DraftUnit>,
}

impl Model for Draft {
    ghost use Rattle.ppserve.specs.Drafts.{Draft};

    ghost Value = { Draft };

    ghost view = { λ d. record { setting = d.setting; files = d.files; units = d.units } };
}

/// Reads the draft of a list.
///
/// # Errors
///
/// `Bad(2)` if a member is missing, unknown or of the wrong type, and `Memory`.
pub(super) fn draft_of(alloc: Global, value: &Value, inline: bool) -> Result<Draft, ListFault>
    ensures ok { IfOk result (λ d. drafting.draft inline (view value.now) ≡ Some d) }
    ensures err { IfErr result (RefusedFor 2 (drafting.draft inline (view value.now) ≡ None)) }
{
    if !is_object_of(
        value,
        &[
            "profile", "budget", "date", "time", "search", "files", "units",
        ],
    ) {
        return Err(ListFault::Bad(2));
    }
    let setting = setting_of(alloc, value)?;
    let files = files_of(alloc, value, inline)?;
    let units = units_of(alloc, value)?;
    Ok(Draft {
        setting,
        files,
        units,
    })
}

/// Reads the draft of a setting.
fn setting_of(alloc: Global, value: &Value) -> Result<DraftSetting, ListFault>
    ensures ok { IfOk result (λ s. drafting.draft_setting (view value.now) ≡ Some s) }
    ensures err { IfErr result (RefusedFor 2 (drafting.draft_setting (view value.now) ≡ None)) }
{
    let profile = profile_at(alloc, value)?;
    let budget = budget_at(value)?;
    let date = text_at(alloc, value, "date")?;
    let time = text_at(alloc, value, "time")?;
    let search = paths_at(alloc, value, "search")?;
    Ok(DraftSetting {
        profile,
        budget,
        date,
        time,
        search,
    })
}

/// Reads the name of the profile. It is `c11` if the member is missing.
fn profile_at(alloc: Global, value: &Value) -> Result<OwnedText, ListFault>
    ensures ok { IfOk result (λ t. drafting.profile_at (view value.now) ≡ Some t) }
    ensures err { IfErr result (RefusedFor 2 (drafting.profile_at (view value.now) ≡ None)) }
{
    let text = match value.get("profile") {
        Some(member) => text_of(member)?,
        None => "c11",
    };
    Ok(OwnedText::new(String::from_str(alloc, text)?))
}

/// Reads the budget: a number, or none if the member is missing.
fn budget_at(value: &Value) -> Result<DraftBudget, ListFault>
    ensures ok { IfOk result (λ b. drafting.budget_at (view value.now) ≡ Some b) }
    ensures err { IfErr result (RefusedFor 2 (drafting.budget_at (view value.now) ≡ None)) }
{
    let Some(member) = value.get("budget") else {
        return Ok(DraftBudget {
            written: WrittenBudget::Missing,
        });
    };
    let Some(number) = member.as_number() else {
        return Err(ListFault::Bad(2));
    };
    let written = match number.as_u64() {
        Some(whole) => WrittenBudget::Integer(whole),
        None => WrittenBudget::Other,
    };
    Ok(DraftBudget { written })
}

/// Returns the text of a JSON string.
fn text_of(value: &Value) -> Result<&str, ListFault>
    ensures ok { IfOk result (λ t. as_str (view value.now) ≡ Some t.now) }
    ensures err { IfErr result (RefusedFor 2 (as_str (view value.now) ≡ None)) }
{
    match value.as_str() {
        Some(text) => Ok(text),
        None => Err(ListFault::Bad(2)),
    }
}

/// Reads the drafts of the files.
fn files_of(alloc: Global, value: &Value, inline: bool) -> Result<Sequence<DraftFile>, ListFault>
    ensures ok { IfOk result (λ fs. drafting.array_at (drafting.draft_file inline) (codes "files") (view value.now) ≡ Some fs) }
    ensures err { IfErr result (RefusedFor 2 (drafting.array_at (drafting.draft_file inline) (codes "files") (view value.now) ≡ None)) }
{
    let Some(array) = value.get("files") else {
        return Err(ListFault::Bad(2));
    };
    let Some(items) = array.as_array() else {
        return Err(ListFault::Bad(2));
    };
    files_from(alloc, items.as_slice(), inline)
}

/// Reads the drafts of files.
fn files_from(
    alloc: Global,
    items: &[Value],
    inline: bool,
) -> Result<Sequence<DraftFile>, ListFault>
    ensures ok { IfOk result (λ fs. drafting.each_item (drafting.draft_file inline) (items_view items.now) ≡ Some fs) }
    ensures err { IfErr result (RefusedFor 2 (drafting.each_item (drafting.draft_file inline) (items_view items.now) ≡ None)) }
{
    let mut files = Vec::new(alloc);
    for item in items {
        files.push(file_from(alloc, item, inline)?)?;
    }
    Ok(Sequence::new(files))
}

/// Reads the draft of a file.
fn file_from(alloc: Global, value: &Value, inline: bool) -> Result<DraftFile, ListFault>
    ensures ok { IfOk result (λ f. drafting.draft_file inline (view value.now) ≡ Some f) }
    ensures err { IfErr result (RefusedFor 2 (drafting.draft_file inline (view value.now) ≡ None)) }
{
    if !is_file_object(value, inline) {
        return Err(ListFault::Bad(2));
    }
    let name = text_at(alloc, value, "name")?;
    let content = content_of(alloc, value, inline)?;
    Ok(DraftFile { name, content })
}

/// Returns whether the value is an object that has only members of a file.
fn is_file_object(value: &Value, inline: bool) -> bool
    ensures { result ≡ shape.is_object_of (shape.file_members inline) (view value.now) }
{
    if inline {
        is_object_of(value, &["name", "text", "hex"])
    } else {
        is_object_of(value, &["name"])
    }
}

/// Reads the content of a file from exactly one of `text` and `hex`. It is empty if the list holds no contents.
fn content_of(alloc: Global, value: &Value, inline: bool) -> Result<Sequence<u8>, ListFault>
    ensures ok { IfOk result (λ c. drafting.content_of inline (view value.now) ≡ Some c) }
    ensures err { IfErr result (RefusedFor 2 (drafting.content_of inline (view value.now) ≡ None)) }
{
    if !inline {
        return Ok(Sequence::new(Vec::new(alloc)));
    }
    match (value.get("text"), value.get("hex")) {
        (Some(text), None) => plain_content(alloc, text),
        (None, Some(hex)) => hex_content(alloc, hex),
        _ => Err(ListFault::Bad(2)),
    }
}

/// Reads a content from `text`.
fn plain_content(alloc: Global, value: &Value) -> Result<Sequence<u8>, ListFault>
    ensures ok { IfOk result (λ c. as_str (view value.now) ≡ Some c) }
    ensures err { IfErr result (RefusedFor 2 (as_str (view value.now) ≡ None)) }
{
    let text = text_of(value)?;
    Ok(Sequence::new(Vec::from_slice(alloc, text.as_bytes())?))
}

/// Reads a content from `hex`.
fn hex_content(alloc: Global, value: &Value) -> Result<Sequence<u8>, ListFault>
    ensures ok { IfOk result (λ c. option_and_then shape.hex_bytes (as_str (view value.now)) ≡ Some c) }
    ensures err { IfErr result (RefusedFor 2 (option_and_then shape.hex_bytes (as_str (view value.now)) ≡ None)) }
{
    let text = text_of(value)?;
    hex_bytes(alloc, text.as_bytes())
}

/// Reads the drafts of the units.
fn units_of(alloc: Global, value: &Value) -> Result<Sequence<DraftUnit>, ListFault>
    ensures ok { IfOk result (λ us. drafting.array_at drafting.draft_unit (codes "units") (view value.now) ≡ Some us) }
    ensures err { IfErr result (RefusedFor 2 (drafting.array_at drafting.draft_unit (codes "units") (view value.now) ≡ None)) }
{
    let Some(array) = value.get("units") else {
        return Err(ListFault::Bad(2));
    };
    let Some(items) = array.as_array() else {
        return Err(ListFault::Bad(2));
    };
    units_from(alloc, items.as_slice())
}

/// Reads the drafts of units.
fn units_from(alloc: Global, items: &[Value]) -> Result<Sequence<DraftUnit>, ListFault>
    ensures ok { IfOk result (λ us. drafting.each_item drafting.draft_unit (items_view items.now) ≡ Some us) }
    ensures err { IfErr result (RefusedFor 2 (drafting.each_item drafting.draft_unit (items_view items.now) ≡ None)) }
{
    let mut units = Vec::new(alloc);
    for item in items {
        units.push(unit_from(alloc, item)?)?;
    }
    Ok(Sequence::new(units))
}

/// Reads the draft of a unit.
fn unit_from(alloc: Global, value: &Value) -> Result<DraftUnit, ListFault>
    ensures ok { IfOk result (λ u. drafting.draft_unit (view value.now) ≡ Some u) }
    ensures err { IfErr result (RefusedFor 2 (drafting.draft_unit (view value.now) ≡ None)) }
{
    if !is_object_of(value, &["file", "shown", "define", "first", "search"]) {
        return Err(ListFault::Bad(2));
    }
    let file = text_at(alloc, value, "file")?;
    let shown = optional_text_at(alloc, value, "shown")?;
    let defines = texts_at(alloc, value, "define")?;
    let first = paths_at(alloc, value, "first")?;
    let search = paths_at(alloc, value, "search")?;
    Ok(DraftUnit {
        file,
        shown,
        defines,
        first,
        search,
    })
}

/// Reads a member that is an array of directories, or of files that are read first. It is empty if the member is missing.
fn paths_at(alloc: Global, value: &Value, name: &str) -> Result<DraftPaths, ListFault>
    ensures ok { IfOk result (λ ps. drafting.paths_at name.now (view value.now) ≡ Some ps) }
    ensures err { IfErr result (RefusedFor 2 (drafting.paths_at name.now (view value.now) ≡ None)) }
{
    match value.get(name) {
        Some(array) => paths_of(alloc, array),
        None => Ok(DraftPaths::new(Vec::new(alloc))),
    }
}

/// Reads an array of directories, or of files that are read first.
fn paths_of(alloc: Global, array: &Value) -> Result<DraftPaths, ListFault>
    ensures ok { IfOk result (λ ps. drafting.each_of drafting.draft_path (view array.now) ≡ Some ps) }
    ensures err { IfErr result (RefusedFor 2 (drafting.each_of drafting.draft_path (view array.now) ≡ None)) }
{
    let Some(items) = array.as_array() else {
        return Err(ListFault::Bad(2));
    };
    paths_from(alloc, items.as_slice())
}

/// Reads directories, or files that are read first.
fn paths_from(alloc: Global, items: &[Value]) -> Result<DraftPaths, ListFault>
    ensures ok { IfOk result (λ ps. drafting.each_item drafting.draft_path (items_view items.now) ≡ Some ps) }
    ensures err { IfErr result (RefusedFor 2 (drafting.each_item drafting.draft_path (items_view items.now) ≡ None)) }
{
    let mut paths = Vec::new(alloc);
    for item in items {
        paths.push(path_from(alloc, item)?)?;
    }
    Ok(DraftPaths::new(paths))
}

/// Reads a directory, or a file that is read first: its name, or an object.
fn path_from(alloc: Global, value: &Value) -> Result<DraftPath, ListFault>
    ensures ok { IfOk result (λ p. drafting.draft_path (view value.now) ≡ Some p) }
    ensures err { IfErr result (RefusedFor 2 (drafting.draft_path (view value.now) ≡ None)) }
{
    let Some(name) = value.as_str() else {
        return path_of_object(alloc, value);
    };
    Ok(DraftPath {
        name: OwnedText::new(String::from_str(alloc, name)?),
        shown: None,
        system: false,
    })
}

/// Reads a directory, or a file that is read first, from an object.
fn path_of_object(alloc: Global, value: &Value) -> Result<DraftPath, ListFault>
    ensures ok { IfOk result (λ p. drafting.path_of_object (view value.now) ≡ Some p) }
    ensures err { IfErr result (RefusedFor 2 (drafting.path_of_object (view value.now) ≡ None)) }
{
    if !is_object_of(value, &["name", "shown", "system"]) {
        return Err(ListFault::Bad(2));
    }
    let name = text_at(alloc, value, "name")?;
    let shown = optional_text_at(alloc, value, "shown")?;
    let system = flag_at(value, "system")?;
    Ok(DraftPath {
        name,
        shown,
        system,
    })
}

/// Reads a member that is a string, if there is one.
fn optional_text_at(
    alloc: Global,
    value: &Value,
    name: &str,
) -> Result<Option<OwnedText>, ListFault>
    ensures ok { IfOk result (λ t. drafting.optional_text_at name.now (view value.now) ≡ Some t) }
    ensures err { IfErr result (RefusedFor 2 (drafting.optional_text_at name.now (view value.now) ≡ None)) }
{
    let Some(member) = value.get(name) else {
        return Ok(None);
    };
    let text = text_of(member)?;
    Ok(Some(OwnedText::new(String::from_str(alloc, text)?)))
}

/// Reads a member that is true or false. It is false if the member is missing.
fn flag_at(value: &Value, name: &str) -> Result<bool, ListFault>
    ensures ok { IfOk result (λ f. drafting.flag_at name.now (view value.now) ≡ Some f) }
    ensures err { IfErr result (RefusedFor 2 (drafting.flag_at name.now (view value.now) ≡ None)) }
{
    let Some(member) = value.get(name) else {
        return Ok(false);
    };
    match member.as_bool() {
        Some(flag) => Ok(flag),
        None => Err(ListFault::Bad(2)),
    }
}

/// Reads a member that is a string.
fn text_at(alloc: Global, value: &Value, name: &str) -> Result<OwnedText, ListFault>
    ensures ok { IfOk result (λ t. drafting.text_at name.now (view value.now) ≡ Some t) }
    ensures err { IfErr result (RefusedFor 2 (drafting.text_at name.now (view value.now) ≡ None)) }
{
    let Some(text) = value.get(name).and_then(Value::as_str) else {
        return Err(ListFault::Bad(2));
    };
    Ok(OwnedText::new(String::from_str(alloc, text)?))
}

/// Reads a member that is an array of strings. It is empty if the member is missing.
fn texts_at(alloc: Global, value: &Value, name: &str) -> Result<OwnedTexts, ListFault>
    ensures ok { IfOk result (λ ts. drafting.texts_at name.now (view value.now) ≡ Some ts) }
    ensures err { IfErr result (RefusedFor 2 (drafting.texts_at name.now (view value.now) ≡ None)) }
{
    match value.get(name) {
        Some(array) => texts_of(alloc, array),
        None => Ok(OwnedTexts::new(Vec::new(alloc))),
    }
}

/// Reads an array of strings.
fn texts_of(alloc: Global, array: &Value) -> Result<OwnedTexts, ListFault>
    ensures ok { IfOk result (λ ts. drafting.each_of as_str (view array.now) ≡ Some ts) }
    ensures err { IfErr result (RefusedFor 2 (drafting.each_of as_str (view array.now) ≡ None)) }
{
    let Some(items) = array.as_array() else {
        return Err(ListFault::Bad(2));
    };
    texts_from(alloc, items.as_slice())
}

/// Reads strings.
fn texts_from(alloc: Global, items: &[Value]) -> Result<OwnedTexts, ListFault>
    ensures ok { IfOk result (λ ts. drafting.each_item as_str (items_view items.now) ≡ Some ts) }
    ensures err { IfErr result (RefusedFor 2 (drafting.each_item as_str (items_view items.now) ≡ None)) }
{
    let mut texts = Vec::new(alloc);
    for item in items {
        let text = text_of(item)?;
        texts.push(OwnedText::new(String::from_str(alloc, text)?))?;
    }
    Ok(OwnedTexts::new(texts))
}

/// Returns whether the value is an object that has no members but these.
fn is_object_of(value: &Value, names: &[&str]) -> bool
    ensures { result ≡ shape.is_object_of (map (λ n. n.now) names.now) (view value.now) }
{
    match value.as_object() {
        Some(members) => has_only(members, names),
        None => false,
    }
}

/// Returns whether the names of all members are among `names`.
fn has_only(members: &Map<String, Value>, names: &[&str]) -> bool
    ensures { result ≡ shape.has_only (map (λ n. n.now) names.now) (members_view members.now.entries) }
{
    members.keys().all(|key| is_among(key.as_str(), names))
}

/// Returns whether the text is one of `names`.
fn is_among(text: &str, names: &[&str]) -> bool
    ensures { result ≡ shape.is_one_of text.now (map (λ n. n.now) names.now) }
{
    names.iter().any(|name| text == *name)
}

/// Decodes pairs of hexadecimal digits.
fn hex_bytes(alloc: Global, text: &[u8]) -> Result<Sequence<u8>, ListFault>
    ensures ok { IfOk result (λ bytes. shape.hex_bytes text.now ≡ Some bytes) }
    ensures err { IfErr result (RefusedFor 2 (shape.hex_bytes text.now ≡ None)) }
{
    let mut bytes = Vec::with_capacity(alloc, text.len() / 2)?;
    let mut rest = text;
    while let [high, low, more @ ..] = rest {
        let Some(byte) = hex_byte(*high, *low) else {
            return Err(ListFault::Bad(2));
        };
        bytes.push(byte)?;
        rest = more;
    }
    if !rest.is_empty() {
        return Err(ListFault::Bad(2));
    }
    Ok(Sequence::new(bytes))
}

/// Decodes a pair of hexadecimal digits.
fn hex_byte(high: u8, low: u8) -> Option<u8>
    ensures { result ≡ shape.hex_byte high low }
{
    let high = hex_value(high)?;
    let low = hex_value(low)?;
    Some(high * 16 + low)
}

/// Returns the value of a hexadecimal digit, with letters in lower case.
fn hex_value(digit: u8) -> Option<u8>
    ensures value { result ≡ shape.hex_value digit }
    ensures small { IfSome result (λ n. n < 16) }
{
    match digit {
        b'0'..=b'9' => Some(digit - b'0'),
        b'a'..=b'f' => Some(digit - b'a' + 10),
        _ => None,
    }
}
