//! Changes of rows that are not made yet.
//!
//! A row keeps of a log only the lines that its last line rests on. Rows that are put one after another of the same log share
//! their lines: they stand in one block, each at its place in the log. Rows that are put one after another often show the same
//! assignment: they share one copy of it.

ghost use Rattle.std.specs.Prelude.{◌≡◌, ◌<◌, ◌++◌, ◌∷◌, [], List, None, Some, IfOk, IsTrue, OnErr, OnOk, length};
ghost use Rattle.pc_log.specs.Lines.{LogLine};
ghost use Rattle.pc_log.specs.Trimmed.{IsTrimmed};
ghost use Rattle.pc_cache.specs.Patches.{patch_bytes, Shares};
ghost use Rattle.pc_cache.specs.inside.Patched.{patch_in};

use crate::blocks::{begin_block, share};
use crate::row::{Row, Slot};
use pc_books::Assignment;
use pc_log::{Log, Places, SparseLog, StepId, Trimmer};
use pc_sheet::{Entry, Target};
use std::alloc::{AllocError, Global};
use std::marker::Model;
use std::rc::Rc;

/// Rows that targets are to have, or to lose. It is seen as the list of these changes, with the lines of their derivations: those
/// to which lines of the same log are added, and the bytes of all others, which are settled.
#[derive(Drop)]
pub struct Patch {
    pub(crate) blocks: Vec<SparseLog>,
    pub(crate) slots: Vec<Slot>,
    // No longer so once memory ran out in a `put`: lines may be left on which no row rests.
    pub(crate) whole: bool,
    trimmer: Trimmer,
    // The assignment that was put last.
    last_shown: Option<Rc<Assignment>>,
}

impl Model for Patch {
    ghost use Rattle.pc_cache.specs.Patches.{PatchView};

    ghost Value = { PatchView };

    ghost use Rattle.pc_cache.specs.inside.Patched.{patch_in, IsOfRows};

    ghost view = { λ p. patch_in p.blocks.items p.slots.items };

    ghost invariant = { λ p. IsOfRows p.whole p.blocks.items p.slots.items };
}

impl Patch {
    /// No changes. It takes no memory.
    pub fn new(alloc: Global) -> Patch
        ensures { result ≡ record { rows = []; settled = 0; last = [] } }
    {
        Patch {
            blocks: Vec::new(alloc),
            slots: Vec::new(alloc),
            whole: true,
            trimmer: Trimmer::new(alloc),
            last_shown: None,
        }
    }

    /// The target is to have no row. Without memory the patch stays as it is.
    pub fn remove(&mut self, target: Target) -> Result<(), AllocError>
        ensures ok { OnOk result (self.new ≡ record self.old {
          rows = self.old.rows ++ record { target = target; row = None } ∷ [];
        }) }
        ensures err { OnErr result (self.new ≡ self.old) }
    {
        self.slots.push(Slot { target, row: None })?;
        Ok(())
    }

    /// Settles the lines that were put: what is put from here on shares none of them. Without memory the patch stays as it is.
    pub fn settle(&mut self) -> Result<(), AllocError>
        ensures ok { OnOk result (self.new ≡ record {
          rows = self.old.rows;
          settled = patch_bytes self.old;
          last = [];
        }) }
        ensures err { OnErr result (self.new ≡ self.old) }
    {
        let alloc = *self.slots.allocator();
        begin_block(alloc, &mut self.blocks)?;
        Ok(())
    }

    /// The target is to have a row: this support and assignment, and of the log the line `last` with those that it rests
    /// on. What is put of one log, as it grows, is shared. Without memory the changes stay as they are, but the patch can't be
    /// put in place any more: `apply` then wants memory too.
    pub fn put(
        &mut self,
        target: Target,
        support: &[Entry],
        shown: &Assignment,
        log: &Log,
        last: StepId,
    ) -> Result<(), AllocError>
        requires { last.0 < length log.now }
        ensures ok { OnOk result ((lines : List LogLine) × IsTrimmed log.now last.0 [] lines ×
            (self.new.rows ≡ self.old.rows ++ record {
              target = target;
              row = Some (record { support = support.now; shown = shown.now; lines = lines });
            } ∷
            [])) }
        ensures shares { Shares self.old self.new log.now }
        ensures err { OnErr result (self.new.rows ≡ self.old.rows) }
    {
        let alloc = *self.slots.allocator();
        let support = Vec::from_slice(alloc, support)?;
        let shown = shared(alloc, shown, &mut self.last_shown)?;
        self.slots.reserve(1)?;
        let list = self.trimmer.places(alloc, log, last)?;
        let places = Places::of(alloc, &list)?;
        let whole = self.whole;
        self.whole = false;
        let block = share(alloc, log, &list, &mut self.blocks)?;
        self.whole = whole;
        let row = Row {
            support,
            shown,
            block,
            places,
        };
        self.slots.push(Slot {
            target,
            row: Some(row),
        })?;
        Ok(())
    }
}

// The last assignment, if it is the same as this one, or a copy of this one, which is then the last.
fn shared(
    alloc: Global,
    shown: &Assignment,
    last: &mut Option<Rc<Assignment>>,
) -> Result<Rc<Assignment>, AllocError>
    ensures { IfOk result (λ rc. rc.value ≡ shown.now) }
{
    if let Some(rc) = last {
        if is_same(rc, shown) {
            return rc.clone();
        }
    }
    let copy = Rc::new(
        alloc,
        Assignment::new(Vec::from_slice(alloc, shown.values())?),
    )?;
    *last = Some(copy.clone()?);
    Ok(copy)
}

// Whether two assignments are the same.
fn is_same(one: &Assignment, other: &Assignment) -> bool
    ensures { IsTrue result → one.now ≡ other.now }
{
    one.values() == other.values()
}
