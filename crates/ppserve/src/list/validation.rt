//! Validates the names, sizes and texts of a list.
//!
//! Refusals have numbers, and a list is refused with the lowest that applies. So the checks run in the order of the
//! numbers, each over all files or units, and the specification (`validated`) has them in the same order. The first part
//! checks a draft that it borrows; the second takes a valid draft apart and builds the list from it, so that its texts are
//! moved, except for names. `FileNames` refuses a name that isn't in normal form or that occurs before, and knows the row
//! of each name, by which units refer to their files. So names are copied into one, which the list keeps.
ghost use Rattle.std.specs.Prelude.{◌≡◌, ◌≤◌, ℕ, List as ListOf, Bool, IfOk, IfErr, OnOk, IsErrOf, true, false, [], map, length, nat_le, if◌then◌else◌};
ghost use Rattle.std.specs.List.{list_all};
ghost use Rattle.ppshelf.specs.Content.{longest};
ghost use Rattle.ppshelf.specs.Names as shelf_spec;
ghost use Rattle.ppunit.specs.WellFormed as form;
ghost use Rattle.ppunit.specs.Unit.{command_text};
ghost use Rattle.ppserve.specs.code.Refusals.{RefusedFor};
ghost use Rattle.ppserve.specs.Listing as spec;
ghost use Rattle.ppserve.specs.Listing.{validated, validated_texts, validated_choices, accepted, refused};
ghost use Rattle.ppserve.specs.declared.list.ListFault.TheVariants.{Bad, Memory as OutOfMemory};

use crate::list::drafts::{
    Draft, DraftBudget, DraftFile, DraftPath, DraftPaths, DraftSetting, DraftUnit, WrittenBudget,
};
use crate::list::{List, ListFault, Units};
use ppshelf::{Contents, FileNames, LONGEST, MAX_ROWS, is_directory};
use pptext::{Hashing, Memory, Profile, Sequence};
use ppunit::{
    CommandMacros, FirstFile, OwnedText, OwnedTexts, Setting, ShownDirectories, ShownDirectory,
    Unit, fits_command, is_date, is_one_line, is_time,
};
use std::alloc::{AllocError, Global};

/// The largest budget of a list.
const MAX_BUDGET: u64 = 4_294_967_295;

/// Validates a draft. File names are hashed by `hashing`.
///
/// # Errors
///
/// `Bad` with the least number that applies: 3 for a file name, 4 for a number or a size, 5 for the files of a unit, 6
/// for the date or the time, 7 for a definition, 8 for a directory, 9 for the profile, 10 for the budget and 11 for a shown
/// name; and `Memory`.
pub(super) fn validate(
    alloc: Global,
    draft: Draft,
    inline: bool,
    hashing: Hashing,
) -> Result<List, ListFault>
    ensures ok { IfOk result (λ l. validated inline draft ≡ accepted l) }
    ensures bad { (n : ℕ) → IsErrOf result (Bad n) → validated inline draft ≡ refused n }
{
    match findings_of(alloc, &draft, hashing) {
        Ok(findings) => listed(alloc, draft, findings, inline),
        Err(fault) => Err(fault),
    }
}

/// What the checks of a valid draft find.
#[derive(Drop)]
struct Findings {
    /// The names of the files.
    names: FileNames,
    profile: Profile,
}

/// Returns what the checks of a draft find, unless the draft is refused.
fn findings_of(alloc: Global, draft: &Draft, hashing: Hashing) -> Result<Findings, ListFault>
    ensures names { IfOk result (λ f. f.names.names ≡ spec.names_of draft.now.files) }
    ensures profile { IfOk result (λ f. f.profile ≡ spec.profile_of draft.now.setting) }
    ensures fits { OnOk result (spec.commands_fit draft.now.units ≡ true) }
    ensures ok { OnOk result ((inline : Bool) → validated inline draft.now ≡ accepted (spec.listed inline draft.now)) }
    ensures bad { (n : ℕ) → IsErrOf result (Bad n) → (inline : Bool) → validated inline draft.now ≡ refused n }
{
    let names = index_files(alloc, draft.files.as_slice(), hashing)?;
    if !sizes_hold(draft) {
        return Err(ListFault::Bad(4));
    }
    if !are_known(&names, draft.units.as_slice()) {
        return Err(ListFault::Bad(5));
    }
    match profile_if_texts_valid(draft) {
        Ok(profile) => Ok(Findings { names, profile }),
        Err(number) => Err(ListFault::Bad(number)),
    }
}

/// Returns the profile of a draft with valid file names, sizes and unit files, or the number of its refusal. Checks the
/// date and the time, definitions and directories first.
fn profile_if_texts_valid(draft: &Draft) -> Result<Profile, u8>
    ensures profile { IfOk result (λ p. p ≡ spec.profile_of draft.now.setting) }
    ensures ok { OnOk result ((inline : Bool) → validated_texts inline draft.now ≡ accepted (spec.listed inline draft.now)) }
    ensures bad { IfErr result (λ n. (inline : Bool) → validated_texts inline draft.now ≡ refused n) }
{
    if !times_hold(&draft.setting) {
        return Err(6);
    }
    if !lines_hold(draft.units.as_slice()) {
        return Err(7);
    }
    if !directories_hold(draft) {
        return Err(8);
    }
    profile_if_choices_valid(draft)
}

/// Returns the profile of a draft with valid texts, or the number of its refusal. Checks the profile, the budget and shown names.
fn profile_if_choices_valid(draft: &Draft) -> Result<Profile, u8>
    ensures profile { IfOk result (λ p. p ≡ spec.profile_of draft.now.setting) }
    ensures ok { OnOk result ((inline : Bool) → validated_choices inline draft.now ≡ accepted (spec.listed inline draft.now)) }
    ensures bad { IfErr result (λ n. (inline : Bool) → validated_choices inline draft.now ≡ refused n) }
{
    let Some(profile) = profile_named(draft.setting.profile.as_str()) else {
        return Err(9);
    };
    if !is_budget(&draft.setting.budget) {
        return Err(10);
    }
    if !shown_hold(draft) {
        return Err(11);
    }
    Ok(profile)
}

/// Builds an index of the file names.
///
/// # Errors
///
/// `Bad(3)` if a name isn't in normal form or occurs twice, and `Memory`.
fn index_files(alloc: Global, files: &[DraftFile], hashing: Hashing) -> Result<FileNames, ListFault>
    ensures all { IfOk result (λ i. i.names ≡ spec.names_of files.now) }
    ensures ok { OnOk result (spec.names_hold files.now ≡ true) }
    ensures err { IfErr result (RefusedFor 3 (spec.names_hold files.now ≡ false)) }
{
    let mut index = FileNames::new(alloc, hashing);
    for file in files {
        let name = String::from_str(alloc, file.name.as_str())?;
        let new = index.push(name)?;
        if !new {
            return Err(ListFault::Bad(3));
        }
    }
    Ok(index)
}

/// Returns whether each unit's file, and those that are read first, are among the names.
fn are_known(names: &FileNames, units: &[DraftUnit]) -> bool
    ensures { result ≡ spec.are_known names.now.names units.now }
{
    units.iter().all(|unit| unit_is_known(names, unit))
}

/// Returns whether a unit's file, and those that are read first, are among the names.
fn unit_is_known(names: &FileNames, unit: &DraftUnit) -> bool
    ensures { result ≡ spec.unit_is_known names.now.names unit.now }
{
    is_known(names, &unit.file) && paths_are_known(names, &unit.first)
}

/// Returns whether the names of all paths are among the names.
fn paths_are_known(names: &FileNames, paths: &DraftPaths) -> bool
    ensures { result ≡ spec.paths_are_known names.now.names paths.now }
{
    paths
        .as_slice()
        .iter()
        .all(|path| is_known(names, &path.name))
}

/// Returns whether the text is one of the names.
fn is_known(names: &FileNames, text: &OwnedText) -> bool
    ensures { result ≡ spec.is_known names.now.names text.now }
{
    names.row_of(text.as_str().as_bytes()).is_some()
}

/// Returns the row of a name, or 0 if there is none.
fn row_of(names: &FileNames, text: &OwnedText) -> usize
    ensures { result ≡ spec.row_of names.now.names text.now }
{
    match names.row_of(text.as_str().as_bytes()) {
        Some(row) => row,
        None => 0,
    }
}

/// Returns whether there are at most 65,535 files and units, and no content or definitions are too large.
fn sizes_hold(draft: &Draft) -> bool
    ensures { result ≡ spec.sizes_hold draft.now }
{
    let files = draft.files.as_slice();
    let units = draft.units.as_slice();
    files.len() <= MAX_ROWS && units.len() <= MAX_ROWS && contents_fit(files) && commands_fit(units)
}

/// Returns whether no content is too large.
fn contents_fit(files: &[DraftFile]) -> bool
    ensures { result ≡ spec.contents_fit files.now }
{
    files
        .iter()
        .all(|file| file.content.as_slice().len() <= LONGEST)
}

/// Returns whether the definitions of no unit are too large.
fn commands_fit(units: &[DraftUnit]) -> bool
    ensures { result ≡ spec.commands_fit units.now }
{
    units.iter().all(|unit| command_fits(&unit.defines))
}

/// Returns whether the definitions of a unit aren't too large.
fn command_fits(defines: &OwnedTexts) -> bool
    ensures { result ≡ nat_le (length (command_text defines.now)) longest }
{
    fits_command(defines.as_slice())
}

/// Returns the profile with this name.
fn profile_named(text: &str) -> Option<Profile>
    ensures { result ≡ spec.profile_named text.now }
{
    match text {
        "c11" => Some(Profile::C11),
        "later" => Some(Profile::Later),
        "gnu" => Some(Profile::Gnu),
        _ => None,
    }
}

/// Returns whether a list may have this budget: none, or an integer of at most 32 bits.
fn is_budget(budget: &DraftBudget) -> bool
    ensures { result ≡ spec.is_budget budget.now }
{
    match budget.written {
        WrittenBudget::Missing => true,
        WrittenBudget::Integer(number) => number <= MAX_BUDGET,
        WrittenBudget::Other => false,
    }
}

/// Returns the budget of each unit, if there is one.
fn budget_of(budget: DraftBudget) -> Option<u64>
    ensures { result ≡ spec.budget_of budget }
{
    match budget.written {
        WrittenBudget::Integer(number) => Some(number),
        WrittenBudget::Missing | WrittenBudget::Other => None,
    }
}

/// Builds the list of a valid draft, of which the checks found this. The definitions of its units are read with the
/// profile.
fn listed(alloc: Global, draft: Draft, findings: Findings, inline: bool) -> Result<List, ListFault>
    requires names { findings.names.names ≡ spec.names_of draft.files }
    requires profile { findings.profile ≡ spec.profile_of draft.setting }
    requires fits { spec.commands_fit draft.units ≡ true }
    ensures ok { IfOk result (λ l. l ≡ spec.listed inline draft) }
    ensures err { IfErr result (λ fault. fault ≡ OutOfMemory) }
{
    let Draft {
        setting,
        files,
        units,
    } = draft;
    let Findings { names, profile } = findings;
    let units = listed_units(alloc, &names, profile, units)?;
    let contents = listed_contents(alloc, files, inline)?;
    Ok(List {
        setting: listed_setting(alloc, setting, profile)?,
        names,
        contents,
        units,
    })
}

/// Builds the setting of a valid draft.
fn listed_setting(
    alloc: Global,
    draft: DraftSetting,
    profile: Profile,
) -> Result<Setting, AllocError>
    requires { profile ≡ spec.profile_of draft }
    ensures { IfOk result (λ s. s ≡ spec.listed_setting draft) }
{
    let DraftSetting {
        profile: _,
        budget,
        date,
        time,
        search,
    } = draft;
    let search_shown = shown_directories(alloc, search.as_slice())?;
    Ok(Setting {
        profile,
        date,
        time,
        search: path_names(alloc, search)?,
        search_shown,
        budget: budget_of(budget),
    })
}

/// Builds the units of a valid draft, whose files have these names.
fn listed_units(
    alloc: Global,
    names: &FileNames,
    profile: Profile,
    units: Sequence<DraftUnit>,
) -> Result<Units, Memory>
    requires fits { spec.commands_fit units ≡ true }
    ensures { IfOk result (λ us. us ≡ map (spec.listed_unit profile names.now.names) units) }
{
    let mut listed = Vec::new(alloc);
    for unit in units.into_vec() {
        let unit = listed_unit(alloc, names, profile, listed.last(), unit)?;
        let Ok(()) = listed.push(unit) else {
            return Err(Memory);
        };
    }
    Ok(Units::new(listed))
}

/// Builds a unit of a valid draft.
fn listed_unit(
    alloc: Global,
    names: &FileNames,
    profile: Profile,
    before: Option<&Unit>,
    unit: DraftUnit,
) -> Result<Unit, Memory>
    requires { length (command_text unit.defines) ≤ longest }
    ensures { IfOk result (λ u. u ≡ spec.listed_unit profile names.now.names unit) }
{
    let DraftUnit {
        file,
        shown,
        defines,
        first,
        search,
    } = unit;
    let before = match before {
        Some(unit) => Some(&unit.defines),
        None => None,
    };
    let search_shown = shown_directories(alloc, search.as_slice())?;
    Ok(Unit {
        file: row_of(names, &file),
        shown,
        defines: CommandMacros::read(alloc, before, defines, profile, names.hashing())?,
        first: listed_first(alloc, names, first)?,
        search: path_names(alloc, search)?,
        search_shown,
    })
}

/// Builds the files of a unit that are read first.
fn listed_first(
    alloc: Global,
    names: &FileNames,
    files: DraftPaths,
) -> Result<Sequence<FirstFile>, AllocError>
    ensures { IfOk result (λ fs. fs ≡ spec.listed_first names.now.names files) }
{
    let mut first = Vec::new(alloc);
    for path in files.into_vec() {
        let file = row_of(names, &path.name);
        let DraftPath {
            name: _,
            shown,
            system,
        } = path;
        first.push(FirstFile {
            file,
            shown,
            system,
        })?;
    }
    Ok(Sequence::new(first))
}

/// Returns how directories are shown.
fn shown_directories(alloc: Global, paths: &[DraftPath]) -> Result<ShownDirectories, AllocError>
    ensures { IfOk result (λ ds. ds ≡ spec.shown_directories paths.now) }
{
    let mut directories = Vec::new(alloc);
    for path in paths {
        directories.push(ShownDirectory {
            shown: copy_text(alloc, &path.shown)?,
            system: path.system,
        })?;
    }
    Ok(ShownDirectories::new(directories))
}

/// Copies a text, if there is one.
fn copy_text(alloc: Global, text: &Option<OwnedText>) -> Result<Option<OwnedText>, AllocError>
    ensures { IfOk result (λ t. t ≡ text.now) }
{
    match text {
        Some(text) => Ok(Some(OwnedText::new(String::from_str(alloc, text.as_str())?))),
        None => Ok(None),
    }
}

/// Returns the names of directories.
fn path_names(alloc: Global, paths: DraftPaths) -> Result<OwnedTexts, AllocError>
    ensures { IfOk result (λ ns. ns ≡ spec.path_names paths) }
{
    let mut names = Vec::new(alloc);
    for path in paths.into_vec() {
        let DraftPath {
            name,
            shown: _,
            system: _,
        } = path;
        names.push(name)?;
    }
    Ok(OwnedTexts::new(names))
}

/// Returns the contents of the files if the list holds them.
fn listed_contents(
    alloc: Global,
    files: Sequence<DraftFile>,
    inline: bool,
) -> Result<Contents, AllocError>
    ensures { IfOk result (λ cs. cs ≡ (if inline then spec.contents_of files else [])) }
{
    let mut contents = Vec::new(alloc);
    if !inline {
        return Ok(Contents::new(contents));
    }
    for file in files.into_vec() {
        let DraftFile { name: _, content } = file;
        contents.push(content)?;
    }
    Ok(Contents::new(contents))
}

/// Returns whether date and time have their formats.
fn times_hold(setting: &DraftSetting) -> bool
    ensures { result ≡ spec.times_hold setting.now }
{
    is_date(setting.date.as_str().as_bytes()) && is_time(setting.time.as_str().as_bytes())
}

/// Returns whether each definition of each unit is one line.
fn lines_hold(units: &[DraftUnit]) -> bool
    ensures { result ≡ spec.lines_hold units.now }
{
    units.iter().all(|unit| are_lines(&unit.defines))
}

/// Returns whether each text is one line.
fn are_lines(texts: &OwnedTexts) -> bool
    ensures { result ≡ list_all form.is_one_line texts.now }
{
    texts
        .as_slice()
        .iter()
        .all(|text| is_one_line(text.as_str().as_bytes()))
}

/// Returns whether all search paths are directory names.
fn directories_hold(draft: &Draft) -> bool
    ensures { result ≡ spec.directories_hold draft.now }
{
    are_directories(&draft.setting.search) && units_search_directories(draft.units.as_slice())
}

/// Returns whether the search paths of all units are directory names.
fn units_search_directories(units: &[DraftUnit]) -> bool
    ensures { result ≡ list_all (λ u. spec.are_directories u.search) units.now }
{
    units.iter().all(|unit| are_directories(&unit.search))
}

/// Returns whether all names are directory names.
fn are_directories(paths: &DraftPaths) -> bool
    ensures { result ≡ spec.are_directories paths.now }
{
    paths
        .as_slice()
        .iter()
        .all(|path| is_directory(path.name.as_str().as_bytes()))
}

/// The largest number of bytes in a shown name.
const LONGEST_SHOWN: usize = 4_096;

/// Returns whether each shown name is one.
fn shown_hold(draft: &Draft) -> bool
    ensures { result ≡ spec.shown_hold draft.now }
{
    are_shown(&draft.setting.search) && units_are_shown(draft.units.as_slice())
}

/// Returns whether each shown name of the units is one.
fn units_are_shown(units: &[DraftUnit]) -> bool
    ensures { result ≡ list_all spec.unit_is_shown units.now }
{
    units.iter().all(|unit| unit_is_shown(unit))
}

/// Returns whether each shown name of the unit is one.
fn unit_is_shown(unit: &DraftUnit) -> bool
    ensures { result ≡ spec.unit_is_shown unit.now }
{
    is_shown_if_any(&unit.shown) && are_shown(&unit.first) && are_shown(&unit.search)
}

/// Returns whether each shown name of the paths is one.
fn are_shown(paths: &DraftPaths) -> bool
    ensures { result ≡ spec.are_shown paths.now }
{
    paths
        .as_slice()
        .iter()
        .all(|path| is_shown_if_any(&path.shown))
}

/// Returns whether the text, if there is one, is a shown name.
fn is_shown_if_any(text: &Option<OwnedText>) -> bool
    ensures { result ≡ spec.is_shown_if_any text.now }
{
    match text {
        Some(text) => is_shown(text.as_str().as_bytes()),
        None => true,
    }
}

/// Returns whether the text is a shown name: 1 to 4,096 bytes, none of which is a control character of ASCII.
fn is_shown(text: &[u8]) -> bool
    ensures { result ≡ spec.is_shown text.now }
{
    text.len() >= 1 && text.len() <= LONGEST_SHOWN && has_no_control(text)
}

/// Returns whether the text has no control character of ASCII.
fn has_no_control(text: &[u8]) -> bool
    ensures { result ≡ list_all shelf_spec.is_name_byte text.now }
{
    text.iter().all(|byte| is_no_control(*byte))
}

/// Returns whether the byte is no control character of ASCII.
fn is_no_control(byte: u8) -> bool
    ensures { result ≡ shelf_spec.is_name_byte byte }
{
    byte >= 32 && byte != 127
}
