//! A session as what answers a run's command lines.
//!
//! What a text and a command line ask is judged first (`specs/Tasks.antt`, `Refused.antt`, `Judgement.antt`); what may answer
//! them, and what a run notes where a search spends too much, is `specs/Allowed.antt`. A [`Spreadsheet`] reads sheets and
//! answers lines so: it has a session (`pc_session`) do what a line asks, and its pages are written through `pc_display`,
//! `pc_writer` and `pc_cert_text`.
#![tactic(auto)]

mod asking;
mod commands;
mod edits;
mod law;
mod load;
pub mod page;
mod pages;
mod refusal;
mod repairs;
mod spending;
mod spreadsheet;
mod summary;

// Reading sheets and answering lines

pub use page::{AskProof, Page};
pub use pc_session::Spendings;
pub use spreadsheet::Spreadsheet;
pub use summary::Summary;

// Laws

pub use law::{
    lines_have_one_verdict, sheets_have_one_summary, states_are_well_formed, texts_have_one_verdict,
};
