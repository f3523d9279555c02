//! Master lists.

ghost use Rattle.std.specs.Prelude.{◌≡◌, ◌<◌, ◌≤◌, ◌+◌, true, None, length, IfOk, IfErr};
ghost use Rattle.std.specs.List.{list_any};
ghost use Rattle.std.specs.Str.{bytes_eq};
ghost use Rattle.sm_text.specs.Limits.{most_entries};
ghost use Rattle.sm_text.specs.Slices.{texts_of};
ghost use Rattle.sm_agents.specs.Named.{entries_named};
ghost use Rattle.sm_forms.specs.Forms.{shares};
ghost use Rattle.sm_reader.specs.Judging.{fault_of};
ghost use Rattle.sm_keys.specs.Tables.{has_repeated};
ghost use Rattle.sm_keys.specs.Tokens.{AreNamesAtEnd};
ghost use Rattle.sm_reader.specs.Draft.{said_of, IsDraft, AddsForm, IsLineFault, RefusesFor, HasMasters, masters_in, masters_declared, master_fault, IsMaster, PutsMaster};

use crate::draft::{Draft, MasterList, make_ready};
use crate::faults::TextFault;
use crate::judging::checked_capacity;
use sm_instance::Kind;
use sm_keys::{TextKey, has_repeated};
use sm_text::{MOST_ENTRIES, RefusalKind};
use std::alloc::{AllocError, Global};

/// The runs of the line of a master list: of its name and on it.
#[derive(Clone, Copy)]
pub(crate) struct MasterRuns<'a, 'b> {
    pub(crate) name: &'a [u8],
    pub(crate) entries: &'b [&'a [u8]],
}

/// The names on the master list of a name, which stands above.
pub(crate) fn master_entries<'a>(
    alloc: Global,
    draft: &Draft<'a>,
    master: &'a [u8],
    line: u32,
) -> Result<Vec<&'a [u8]>, TextFault>
    requires { HasMasters draft.now }
    ensures found { IfOk result (λ entries. IsMaster draft.now master.now
        (texts_of entries.items)) }
    ensures refused { IfErr result (λ f. RefusesFor RefusalKind.BadName line
        (entries_named (masters_in draft.now) master.now ≡ None) f) }
{
    match draft.masters.get(&TextKey { text: master }) {
        Some(list) => {
            let names = &draft.on_masters[list.start as usize..list.stop as usize];
            Ok(Vec::from_slice(alloc, names)?)
        }
        None => Err(TextFault::Refused(RefusalKind::BadName, line)),
    }
}

/// Adds a master list. The last `names` runs on it are names, and no more.
pub(crate) fn add_master<'a>(
    alloc: Global,
    draft: &mut Draft<'a>,
    line: u32,
    master: MasterRuns<'a, '_>,
    names: usize,
) -> Result<(), TextFault>
    requires fit { draft.old.entries ≤ most_entries }
    requires few { length draft.old.on_masters.items ≤ draft.old.entries }
    requires names { AreNamesAtEnd names (texts_of master.entries.now) }
    ensures added { IfOk result (λ _. (kind : Kind) → IsDraft kind line draft.old
        → AddsForm kind line (shares master.entry.name.now (texts_of master.entry.entries.now))
        draft.old draft.new) }
    ensures fault { IfErr result (λ f. (kind : Kind) → IsDraft kind line draft.old
        → IsLineFault (fault_of (said_of kind draft.old)
        (shares master.entry.name.now (texts_of master.entry.entries.now))) line f) }
{
    let MasterRuns { name, entries } = master;
    checked_capacity(name, None, entries, names, line)?;
    check_master(alloc, draft, line, master)?;
    put_master(alloc, draft, master)?;
    Ok(())
}

/// Looks for a fault of a master list's names, and of how many there are.
fn check_master(
    alloc: Global,
    draft: &Draft<'_>,
    line: u32,
    master: MasterRuns<'_, '_>,
) -> Result<(), TextFault>
    requires { draft.now.entries ≤ most_entries }
    ensures faultless { IfOk result (λ _. master_fault (masters_declared draft.now)
        master.entry.name.now (texts_of master.entry.entries.now) draft.now.entries ≡ None) }
    ensures fault { IfErr result (λ f. IsLineFault (master_fault (masters_declared draft.now)
        master.entry.name.now (texts_of master.entry.entries.now) draft.now.entries) line f) }
{
    let MasterRuns { name, entries } = master;
    if draft.masters.contains_key(&TextKey { text: name }) {
        return Err(TextFault::Refused(RefusalKind::Redeclared, line));
    }
    if has_repeated(alloc, draft.text, entries)? {
        return Err(TextFault::Refused(RefusalKind::RepeatedEntry, line));
    }
    if entries.len() > MOST_ENTRIES - draft.entries {
        return Err(TextFault::Refused(RefusalKind::TooManyEntries, line));
    }
    Ok(())
}

/// Puts a master list that has no fault behind the others.
fn put_master<'a>(
    alloc: Global,
    draft: &mut Draft<'a>,
    master: MasterRuns<'a, '_>,
) -> Result<(), AllocError>
    requires faultless { master_fault (masters_declared draft.old) master.name.now
        (texts_of master.entries.now) draft.old.entries ≡ None }
    requires few { length draft.old.on_masters.items ≤ draft.old.entries }
    ensures { IfOk result (λ _. PutsMaster draft.old draft.new master.entry.name.now
        (texts_of master.entry.entries.now)) }
{
    let MasterRuns { name, entries } = master;
    make_ready(&mut draft.masters, draft.text)?;
    let start = draft.on_masters.len();
    draft.on_masters.extend_from_slice(entries)?;
    let list = MasterList {
        start: start as u32,
        stop: draft.on_masters.len() as u32,
    };
    draft.masters.insert(TextKey { text: name }, list)?;
    draft.entries += entries.len();
    Ok(())
}
