//! What a patch counts for. Each function is a law: its contract holds for every value, and it does nothing.

ghost use Rattle.pc_cache.specs.Patches.{LinesOfALogAreFew};

/// What is put of one log counts for no more than the log, beside what was settled before.
pub fn lines_of_a_log_are_few()
    ensures { LinesOfALogAreFew }
{}
