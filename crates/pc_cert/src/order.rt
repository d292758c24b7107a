// The order of lines: what stood before.
ghost use Rattle.std.specs.Prelude.{◌≡◌, ◌++◌, ◌∷◌, [], true, List};
ghost use Rattle.pc_cert.specs.Order.{LineKind, kind_of_written, kind_of_written_claim, may_stand};
ghost use Rattle.pc_cert.specs.Standing.{order_of};
ghost use Rattle.pc_cert.specs.Trees.{claim_of, line_of};

use crate::tree::{ClaimTree, LineTree};

/// Which kinds of lines stood so far, whether a value stood since the last set began, and the number of the last line of the
/// derivation, 0 before the first.
#[derive(Clone, Copy)]
pub struct Order {
    pub some: bool,
    pub heading: bool,
    pub claim: bool,
    pub sets: bool,
    pub entries: bool,
    pub value: bool,
    pub derivation: bool,
    pub end: bool,
    pub last: u64,
}

/// Before the first line.
pub fn nothing_yet() -> Order
    ensures { result ≡ order_of [] }
{
    Order {
        some: false,
        heading: false,
        claim: false,
        sets: false,
        entries: false,
        value: false,
        derivation: false,
        end: false,
        last: 0,
    }
}

/// Whether the line may stand next.
pub fn stands(order: &Order, line: &LineTree) -> bool
    ensures { (before : List LineKind) → order.now ≡ order_of before →
        result ≡ may_stand before (kind_of_written (line_of line.now)) }
{
    match line {
        LineTree::Nothing => true,
        LineTree::Heading => !order.some,
        LineTree::Claims(_) => order.heading && !order.claim,
        LineTree::Begins => order.sets && !order.derivation && !order.end,
        LineTree::Uses(_) => order.entries && !order.value && !order.derivation && !order.end,
        LineTree::Assigns(_) => order.entries && !order.derivation && !order.end,
        LineTree::Derives(number, _) => {
            order.claim && !order.end && 0 < *number && *number - 1 == order.last
        }
        LineTree::Ends => order.claim && !order.end,
    }
}

// What stood so far, once the claim stands.
fn behind_claim(order: &Order, claim: &ClaimTree) -> Order
    ensures { (before : List LineKind) → order.now ≡ order_of before →
        result ≡ order_of (before ++ kind_of_written_claim (claim_of claim.now) ∷ []) }
{
    let mut next = *order;
    next.some = true;
    next.claim = true;
    match claim {
        ClaimTree::Implied(_, _) => next.entries = true,
        ClaimTree::Inconsistent => {}
        ClaimTree::Repairs => next.sets = true,
        ClaimTree::Not(_) => next.sets = true,
        ClaimTree::Against(_) => next.entries = true,
    }
    next
}

/// What stood so far, once the line stands.
pub fn behind(order: &Order, line: &LineTree) -> Order
    ensures { (before : List LineKind) → order.now ≡ order_of before →
        may_stand before (kind_of_written (line_of line.now)) ≡ true →
        result ≡ order_of (before ++ kind_of_written (line_of line.now) ∷ []) }
{
    let mut next = *order;
    match line {
        LineTree::Nothing => return next,
        LineTree::Heading => next.heading = true,
        LineTree::Claims(claim) => return behind_claim(order, claim),
        LineTree::Begins => {
            next.entries = true;
            next.value = false;
        }
        LineTree::Uses(_) => {}
        LineTree::Assigns(_) => next.value = true,
        LineTree::Derives(number, _) => {
            next.derivation = true;
            next.last = *number;
        }
        LineTree::Ends => next.end = true,
    }
    next.some = true;
    next
}
