//! Laws on the numbers of what is spent.
ghost use Rattle.pc_run_laws.specs.Counts.{TalliesAreCounted, ToldCountsAreBounded};

use pc_sheet::cells_are_numbered_in_order;
use pc_sortcheck::sheets_are_well_formed;

/// After a load or an accepted edit that searches, the tally's numbers are bounded by the new sheet's parts that it touches,
/// and after an edit of an entry by the one that has its cell.
pub fn tallies_are_counted()
    ensures { TalliesAreCounted }
{}

/// The numbers that are told of a spent search are bounded likewise, all of the budget is placed, and that is too little.
pub fn told_counts_are_bounded()
    ensures { ToldCountsAreBounded }
{
    cells_are_numbered_in_order();
    sheets_are_well_formed();
}
