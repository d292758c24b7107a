//! Lists of entries, oldest first, none twice.
ghost use Rattle.std.specs.Prelude.{◌≡◌, filter, OnOk, OnErr};
ghost use Rattle.std.specs.List.{list_any};
ghost use Rattle.pc_books.specs.Edits.{added_to, agrees_with, entered_to, is_same_entry, without_one};

use pc_sheet::Entry;
use std::alloc::AllocError;

fn is_same(entry: Entry, other: Entry) -> bool
    ensures { result ≡ is_same_entry entry other }
{
    other.cell.0 == entry.cell.0 && other.value.0 == entry.value.0
}

fn agrees_with(entry: Entry, other: Entry) -> bool
    ensures { result ≡ agrees_with entry other }
{
    !(other.cell.0 == entry.cell.0 && other.value.0 != entry.value.0)
}

fn stands(entries: &[Entry], entry: Entry) -> bool
    ensures { result ≡ list_any (is_same_entry entry) entries.now }
{
    entries.iter().any(|other| is_same(entry, *other))
}

/// Adds the entry as the newest, unless it stands already.
pub(crate) fn add(entries: &mut Vec<Entry>, entry: Entry) -> Result<(), AllocError>
    ensures ok { OnOk result (entries.new.items ≡ added_to entries.old.items entry) }
    ensures err { OnErr result (entries.new.items ≡ entries.old.items) }
{
    if !stands(entries, entry) {
        entries.push(entry)?;
    }
    Ok(())
}

// Removes the other entries of the cell.
fn keep_agreeing(entries: &mut Vec<Entry>, entry: Entry)
    ensures { entries.new.items ≡ filter (agrees_with entry) entries.old.items }
{
    entries.retain(|other| agrees_with(entry, *other));
}

/// Enters the entry.
pub(crate) fn enter(entries: &mut Vec<Entry>, entry: Entry) -> Result<(), AllocError>
    ensures ok { OnOk result (entries.new.items ≡ entered_to entries.old.items entry) }
    ensures err { OnErr result (entries.new.items ≡ entries.old.items) }
{
    add(entries, entry)?;
    keep_agreeing(entries, entry);
    Ok(())
}

/// Removes the entry.
pub(crate) fn remove(entries: &mut Vec<Entry>, entry: Entry)
    ensures { entries.new.items ≡ without_one entry entries.old.items }
{
    entries.retain(|other| !is_same(entry, *other));
}
