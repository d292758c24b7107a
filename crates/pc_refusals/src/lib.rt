//! Why sheets and commands are refused, how a run ends, and how both are told; all of an input; and what runs are, whatever
//! their courses: events, stages, and the ways in which a run may end early.
//!
//! They stand apart from the loop of a run, since a certificate's check and the generated sheet's run tell the same.
#![tactic(auto)]

mod input;
mod laws;
mod refusal;
mod status;
mod tell;

pub use input::{InputStop, take_all};
pub use laws::runs_are_of_events;
pub use refusal::{
    COMMAND_REFUSED, Counts, LoadFault, Refusal, SHEET_REFUSED, SheetRefusal, write_number,
    write_refusal,
};
pub use status::Status;
pub use tell::{
    NO_MEMORY, NO_MEMORY_FOR_SHEET, end_with, refuse, tell_file_stop, tell_input_stop,
    tell_no_memory, tell_no_memory_for_sheet, tell_too_long,
};
