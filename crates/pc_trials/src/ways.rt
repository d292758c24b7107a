// In how many ways what a session keeps together can be chosen.
use pc_session::{Choices, Session};

/// How many ways there are to choose a maximal set of each part.
pub(crate) fn ways(session: &Session) -> usize {
    let mut ways: usize = 1;
    for part in 0..session.parts() {
        ways = ways.wrapping_mul(session.sets(part).len());
    }
    ways
}
