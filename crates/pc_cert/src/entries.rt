// What the cells with values in a line name.
ghost use Rattle.std.specs.Prelude.{◌≡◌, ◌↔◌, List, Some, map, IfOk};
ghost use Rattle.std.specs.Option.{option_map};
ghost use Rattle.pc_sheet.specs.declared.ids.Entry.{Entry};
ghost use Rattle.pc_cert.specs.Meaning.{AreNamedEach};
ghost use Rattle.pc_cert.specs.Claims.{IsPairNamed};
ghost use Rattle.pc_cert.specs.Trees.{pair_of, entries_in};

use crate::lookup::named_entry;
use crate::tree::PairTree;
use pc_books::Book;
use pc_sheet::Entry;
use std::alloc::{AllocError, Global};

/// The entries that are named, one after the other.
pub fn named_entries(
    alloc: Global,
    book: &Book,
    pairs: &[PairTree],
) -> Result<Option<Vec<Entry>>, AllocError>
    ensures { IfOk result (λ o. (es : List Entry) → (option_map entries_in o ≡ Some es) ↔
        AreNamedEach (IsPairNamed book.now.universe) (map pair_of pairs.now) es) }
{
    let mut entries = Vec::new(alloc);
    for pair in pairs {
        let Some(entry) = named_entry(book, pair) else {
            return Ok(None);
        };
        entries.push(entry)?;
    }
    Ok(Some(entries))
}
