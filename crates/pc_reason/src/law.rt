// Laws over the definitions, each the contract of a function that does nothing.
ghost use Rattle.pc_reason.specs.Shows.{JustificationsShowSupports};
ghost use Rattle.pc_reason.specs.Written.{AcceptedReasonsAreWritable, AcceptedRefutationsAreWritable, DerivedLinesAreWritable};

/// What justifies a target is its least support with an assignment that fits and has it.
pub fn justifications_show_supports()
    ensures { JustificationsShowSupports }
{}

/// What is accepted can be written, where variables and axioms are named by what the sheet has.
pub fn accepted_are_writable()
    ensures reasons { AcceptedReasonsAreWritable }
    ensures refutations { AcceptedRefutationsAreWritable }
    ensures lines { DerivedLinesAreWritable }
{}
