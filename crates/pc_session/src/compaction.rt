//! When the kept derivations are compacted.
//!
//! A reason that is replaced leaves its lines behind. They are dropped at the start of an edit that searches, exactly where all
//! lines count for 1,048,576 bytes more than twice what was left the last time or, where that was nothing, than twice what was
//! put first (or than twice 16 for each line of each reason, where that is less). By the first it comes once for each 1,048,576
//! bytes that were put since; by the last, where few reasons rest on many long lines, at each such edit. It then goes over the
//! places of every row. What both are compared with is kept, so that an edit at which nothing is due takes no time for it.
ghost use Rattle.std.specs.Prelude.{◌≡◌, ◌<◌, ◌≤◌, ◌+◌, ◌*◌, OnErr, OnOk, nat_lt};
ghost use Rattle.pc_session.specs.Arena.{compacted, IsLeft, IsLeftWhereDue};

use pc_cache::Cache;
use std::alloc::AllocError;

// Whether the first, which is more than 1,048,576, is that much more than twice the second.
fn is_due(arena: u128, live: u128) -> bool
    requires { 1048576 < arena }
    ensures { result ≡ nat_lt (2 * live + 1048576) arena }
{
    live <= (arena - 1_048_577) / 2
}

/// Compacts the derivations where it is due. All reasons stay; without memory all stays as it is.
pub(crate) fn compact_if_due(cache: &mut Cache) -> Result<(), AllocError>
    ensures rows { cache.new.rows ≡ cache.old.rows }
    ensures ok { OnOk result (cache.new.bytes ≤ compacted cache.old.rows cache.old.bytes) }
    ensures left { OnOk result (IsLeft cache.old.bytes cache.old.spare cache.new.bytes
        cache.new.spare) }
    ensures due { OnOk result (IsLeftWhereDue cache.old cache.new) }
    ensures err { OnErr result (cache.new ≡ cache.old) }
{
    let arena = cache.arena_bytes();
    if arena <= 1_048_576 {
        return Ok(());
    }
    if is_due(arena, cache.live_bytes()) {
        cache.compact()?;
    }
    Ok(())
}
