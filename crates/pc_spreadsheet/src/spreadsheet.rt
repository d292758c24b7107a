//! What answers the command lines.
ghost use Rattle.pc_syntax.specs.Command.{asks};
ghost use Rattle.pc_syntax.specs.Sized.{IsNestedReading, IsSizedReading};
ghost use Rattle.pc_syntax.specs.Tree.{asked_of};
ghost use Rattle.pc_spreadsheet.specs.Commands.{Obeys};
ghost use Rattle.pc_spreadsheet.specs.Summary.{IsSummary};

use crate::commands::obey;
use crate::load::load;
use crate::page::Page;
use crate::pages::{has_certificate, write_certificate, write_page};
use crate::refusal::reply_to;
use crate::summary::{Summary, sum_up};
use pc_port::{Failed, Sink};
use pc_reason::Refutation;
use pc_session::{Session, Spendings};
use pc_syntax::{Command, parse_command};
use pc_transcript::{LoadStop, Machine, Reply};
use std::alloc::Global;
use std::marker::Model;

/// A spreadsheet that answers command lines, seen as its sheet and its budget.
#[derive(Drop)]
pub struct Spreadsheet {
    pub(crate) session: Session,
}

impl Model for Spreadsheet {
    ghost use Rattle.pc_spreadsheet.specs.Commands.{state_of};
    ghost use Rattle.pc_spreadsheet.specs.Tasks.{State};
    ghost use Rattle.pc_spreadsheet.specs.State.{coded_state};

    ghost Value = { State };

    ghost coded = { coded_state };

    ghost view = { λ s. state_of s.session };
}

impl Spreadsheet {
    /// How many cells and entries there are, how many entries have a conflict, and how many pairs of a cell and a value are
    /// implied. It takes no memory.
    pub fn summary(&self) -> Summary
        ensures { IsSummary self.now.sheet result }
    {
        sum_up(&self.session)
    }

    /// Does what a command asks for, once its line is read. Only a rule to add, the display as JSON, what asks for maximal
    /// sets or a formula, and an edit that needs a search may want memory.
    pub fn obey(
        &mut self,
        alloc: Global,
        command: &Command,
        notes: &mut Spendings,
    ) -> Reply<Page, Refutation>
        requires sized { IsSizedReading (asks (asked_of command.now)) }
        requires nested { IsNestedReading (asks (asked_of command.now)) }
        ensures { Obeys (self.old, notes.old) (asked_of command.now) result (self.new, notes.new) }
    {
        obey(alloc, &mut self.session, command, notes)
    }
}

impl Machine for Spreadsheet {
    ghost use Rattle.pc_spreadsheet.specs.Allowed.{Allows, RefusesText};
    ghost use Rattle.pc_spreadsheet.specs.Pages.{CanShow, IsCertificateAgainst, IsPage};
    ghost use Rattle.pc_spreadsheet.specs.Tasks.{Starts};

    type Page = Page;

    type Proof = Refutation;

    type Notes = Spendings;

    ghost IsSheet = { Starts };

    ghost RefusesText = { RefusesText };

    ghost Allows = { Allows };

    ghost CanShow = { CanShow };

    ghost IsPage = { IsPage };

    ghost IsProof = { IsCertificateAgainst };

    fn load(
        alloc: Global,
        text: &[u8],
        budget: u64,
        notes: &mut Spendings,
    ) -> Result<Self, LoadStop<Refutation>> {
        load(alloc, text, budget, notes)
    }

    fn decide(
        &mut self,
        alloc: Global,
        line: &[u8],
        notes: &mut Spendings,
    ) -> Reply<Page, Refutation> {
        match parse_command(alloc, line) {
            Ok(Some(command)) => self.obey(alloc, &command, notes),
            Ok(None) => Reply::Silent,
            Err(fault) => reply_to(fault),
        }
    }

    fn show<O: Sink>(&self, page: &Page, out: &mut O) -> Result<(), Failed> {
        write_page(&self.session, page, out)
    }

    fn has_text(proof: &Refutation) {
        has_certificate(proof);
    }

    fn prove<O: Sink>(proof: &Refutation, out: &mut O) -> Result<(), Failed> {
        write_certificate(proof, out)
    }
}
