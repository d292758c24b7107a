//! Laws over courses and their events, each the contract of a function that does nothing.
ghost use Rattle.std.specs.Prelude.{List, ℕ};
ghost use Rattle.pc_port.specs.declared.TheConstants.{CHUNK};
ghost use Rattle.pc_refusals.specs.declared.status.Status.{Status as AStatus};
ghost use Rattle.pc_refusals.specs.Events.{Event, Outside};
ghost use Rattle.pc_refusals.specs.Runs.{Ran, Run};
ghost use Rattle.pc_journal.specs.Course.{Merge, Posts};
ghost use Rattle.pc_transcript.specs.Course.{Edit, Replay};
ghost use Rattle.pc_run_laws.specs.Causes.{FaultsComeLast, HasCauses};
ghost use Rattle.pc_run_laws.specs.Edits.{Edited};
ghost use Rattle.pc_run_laws.specs.Examples.{WorkedRuns, WrongRuns};
ghost use Rattle.pc_run_laws.specs.Flat.{EventsAddUp};
ghost use Rattle.pc_run_laws.specs.Limits.{EndsTooLongExactly};
ghost use Rattle.pc_run_laws.specs.Moments.{moment};
ghost use Rattle.pc_run_laws.specs.Replays.{Replayed};

use pc_transcript::Machine;

/// Runs of a few command lines.
pub fn runs_are_worked()
    ensures { WorkedRuns }
{}

/// Events that are of no run.
pub fn wrong_runs_are_refused()
    ensures { WrongRuns }
{}

/// What was taken has left the input, and what was told stands at the end of the output.
pub fn events_add_up()
    ensures { EventsAddUp }
{}

/// What a run from the input says by its status follows from its events.
pub fn replays_are_said_by_status<M: Machine>()
    ensures { (budget : ℕ) (status : AStatus) (notes notes' : M.Notes) (a b : Outside) →
        Ran (Replay (M.IsSheet budget) (M.RefusesText budget) M.Allows notes) CHUNK status notes' a
        b → Replayed (M.IsSheet budget) (M.RefusesText budget) M.Allows status (moment a notes)
        (moment b notes') }
{}

/// What a run on a file's sheet says by its status follows from its events.
pub fn edits_are_said_by_status<M: Machine>()
    ensures { (budget : ℕ) (file : List ℕ) (status : AStatus) (notes notes' : M.Notes)
        (a b : Outside) → Ran (Edit (M.IsSheet budget) (M.RefusesText budget) M.Allows file notes)
        CHUNK status notes' a b → Edited (M.IsSheet budget) (M.RefusesText budget) M.Allows file
        status (moment a notes) (moment b notes') }
{}

/// Faults are told exactly where the counts say so, in the modes that answer command lines or take journals.
pub fn faults_are_counted<M: Machine>()
    ensures replay { (budget most : ℕ) (status : AStatus) (notes notes' : M.Notes) (a b : Outside) →
        Ran (Replay (M.IsSheet budget) (M.RefusesText budget) M.Allows notes) most status notes' a
        b → HasCauses status a b }
    ensures edit { (budget most : ℕ) (file : List ℕ) (status : AStatus) (notes notes' : M.Notes)
        (a b : Outside) → Ran (Edit (M.IsSheet budget) (M.RefusesText budget) M.Allows file notes)
        most status notes' a b → HasCauses status a b }
    ensures merge { (most : ℕ) (file : List ℕ) (status : AStatus) (a b : Outside) →
        Ran (Merge file) most status tt a b → HasCauses status a b }
    ensures posts { (budget most : ℕ) (file : List ℕ) (status : AStatus) (notes notes' : M.Notes)
        (a b : Outside) → Ran (Posts (M.IsSheet budget) (M.RefusesText budget) M.Allows file notes)
        most status notes' a b → HasCauses status a b }
{}

/// A fault is the last that happens, with `replay` and `edit`.
pub fn nothing_follows_a_fault<M: Machine>()
    ensures replay { (budget : ℕ) (status : AStatus) (notes notes' : M.Notes)
        (events : List Event) →
        Run (Replay (M.IsSheet budget) (M.RefusesText budget) M.Allows notes) events status notes' →
        FaultsComeLast events }
    ensures edit { (budget : ℕ) (file : List ℕ) (status : AStatus) (notes notes' : M.Notes)
        (events : List Event) →
        Run (Edit (M.IsSheet budget) (M.RefusesText budget) M.Allows file notes) events status
        notes' → FaultsComeLast events }
{}

/// A run ends in `TooLong` exactly where it took in what passes a limit and no device failed, in these modes.
pub fn limits_end_runs<M: Machine>()
    ensures replay { (budget : ℕ) (notes : M.Notes) →
        EndsTooLongExactly (Replay (M.IsSheet budget) (M.RefusesText budget) M.Allows notes) }
    ensures edit { (budget : ℕ) (file : List ℕ) (notes : M.Notes) →
        EndsTooLongExactly (Edit (M.IsSheet budget) (M.RefusesText budget) M.Allows file notes) }
    ensures merge { (file : List ℕ) → EndsTooLongExactly (Merge file) }
    ensures posts { (budget : ℕ) (file : List ℕ) (notes : M.Notes) →
        EndsTooLongExactly (Posts (M.IsSheet budget) (M.RefusesText budget) M.Allows file notes) }
{}
