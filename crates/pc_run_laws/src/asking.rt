//! Laws on what is enough to answer a formula.
ghost use Rattle.pc_run_laws.specs.Asking.{EnoughByEntries, ReadSizesExist};

/// The parts that a formula reads have one number of entries and one number of sets, which are few.
pub fn read_sizes_exist()
    ensures { ReadSizesExist }
{}

/// So there is a budget that is enough to answer a formula, by the asked sheet's pairs and nodes and the entries alone.
pub fn entries_say_what_is_enough()
    ensures { EnoughByEntries }
{}
