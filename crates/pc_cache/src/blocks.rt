//! The blocks in which the lines of rows stand.
//!
//! Each block has lines of one log, at their places in it. That rows are of the same log is tested line by line, since nobody
//! says so; where they aren't, another block is begun.

ghost use Rattle.std.specs.Prelude.{◌≡◌, ◌≢◌, ◌<◌, ◌≤◌, ◌+◌, ◌⊎◌, ℕ, [], None, All, Contains, IfOk, IfSome, IsTrue, OnErr, OnOk, length, map};
ghost use Rattle.pc_log.specs.Sizes.{bytes_of};
ghost use Rattle.pc_log.specs.Sparse.{line_at, line_in, AddsOnly, IsThere, Keeps, LinesStand, MayStand};
ghost use Rattle.pc_cache.specs.Rows.{bytes_of_rows};
ghost use Rattle.pc_cache.specs.inside.Kept.{block_at, bytes_of_blocks, rows_in, AreRowsIn, IsRowIn, KeepsBlocks};
ghost use Rattle.pc_cache.specs.inside.Patched.{last_in, settled_in, ShareBlock};
ghost use Rattle.pc_cache.specs.inside.Rested.{IsRowKept};
ghost use Rattle.pc_cache.specs.inside.Spare.{spare_in};

use crate::moving::is_free;
use crate::row::{Row, Slot};
use pc_log::{Log, SparseLog};
use std::alloc::{AllocError, Global};

/// Puts the log's lines at these places into a block where no other lines stand there, and answers its number: the last block, or
/// else one more. Without memory some of them may have been put.
pub(crate) fn share(
    alloc: Global,
    log: &Log,
    places: &[u32],
    blocks: &mut Vec<SparseLog>,
) -> Result<usize, AllocError>
    requires { All (λ p. p < length log.now) places.now }
    ensures keeps { KeepsBlocks blocks.old.items blocks.new.items }
    ensures within { IfOk result (λ block. block < length blocks.new.items) }
    ensures stand { IfOk result (λ block. LinesStand (line_at log.now) places.now
        (block_at blocks.new.items block)) }
    ensures bytes { OnOk result (bytes_of_blocks blocks.new.items ≤
        bytes_of_blocks blocks.old.items + bytes_of (map (line_at log.now) places.now)) }
    ensures shares { ShareBlock log.now blocks.old.items blocks.new.items }
{
    let block = block_for(alloc, log, places, blocks)?;
    put_lines(log, places, block, blocks)?;
    Ok(block)
}

/// Begins another block, unless no line was put into the last one. Without memory all stays as it is.
pub(crate) fn begin_block(alloc: Global, blocks: &mut Vec<SparseLog>) -> Result<(), AllocError>
    ensures keeps { KeepsBlocks blocks.old.items blocks.new.items }
    ensures last { OnOk result (last_in blocks.new.items ≡ []) }
    ensures settled { OnOk result (settled_in blocks.new.items ≡
        bytes_of_blocks blocks.old.items) }
    ensures bytes { bytes_of_blocks blocks.new.items ≡ bytes_of_blocks blocks.old.items }
    ensures err { OnErr result (blocks.new.items ≡ blocks.old.items) }
{
    match is_last_empty(blocks) {
        true => Ok(()),
        false => {
            blocks.push(SparseLog::new(alloc))?;
            Ok(())
        }
    }
}

// Whether the last block has no line, or there is none.
fn is_last_empty(blocks: &[SparseLog]) -> bool
    ensures { IsTrue result → last_in blocks.now ≡ [] }
{
    let count = blocks.len();
    if count == 0 {
        return true;
    }
    is_free(count - 1, blocks)
}

// The number of a block in which the log's lines at these places may stand.
fn block_for(
    alloc: Global,
    log: &Log,
    places: &[u32],
    blocks: &mut Vec<SparseLog>,
) -> Result<usize, AllocError>
    requires { All (λ p. p < length log.now) places.now }
    ensures last { IfOk result (λ block. block + 1 ≡ length blocks.new.items) }
    ensures free { IfOk result (λ block. MayStand (line_at log.now) places.now
        (block_at blocks.new.items block)) }
    ensures keeps { KeepsBlocks blocks.old.items blocks.new.items }
    ensures bytes { bytes_of_blocks blocks.new.items ≡ bytes_of_blocks blocks.old.items }
    ensures shares { ShareBlock log.now blocks.old.items blocks.new.items }
{
    match last_free(log, places, blocks) {
        Some(block) => Ok(block),
        None => {
            blocks.push(SparseLog::new(alloc))?;
            Ok(blocks.len() - 1)
        }
    }
}

// The number of the last block, if there is one and the log's lines at these places may stand in it.
fn last_free(log: &Log, places: &[u32], blocks: &[SparseLog]) -> Option<usize>
    requires { All (λ p. p < length log.now) places.now }
    ensures some { IfSome result (λ block. (block + 1 ≡ length blocks.now) ×
        MayStand (line_at log.now) places.now (block_at blocks.now block)) }
    ensures none { result ≡ None → (blocks.now ≡ []) ⊎
        ¬ MayStand (line_at log.now) places.now (last_in blocks.now) }
{
    let count = blocks.len();
    if count == 0 {
        return None;
    }
    if blocks[count - 1].agrees(log, places) {
        Some(count - 1)
    } else {
        None
    }
}

// Puts the log's lines at these places of a block. Without memory some of them may have been put.
fn put_lines(
    log: &Log,
    places: &[u32],
    block: usize,
    blocks: &mut Vec<SparseLog>,
) -> Result<(), AllocError>
    requires block { block + 1 ≡ length blocks.old.items }
    requires within { All (λ p. p < length log.now) places.now }
    requires free { MayStand (line_at log.now) places.now (block_at blocks.old.items block) }
    ensures keeps { KeepsBlocks blocks.old.items blocks.new.items }
    ensures shares { ShareBlock log.now blocks.old.items blocks.new.items }
    ensures stand { OnOk result
        (LinesStand (line_at log.now) places.now (block_at blocks.new.items block)) }
    ensures bytes { OnOk result (bytes_of_blocks blocks.new.items ≤
        bytes_of_blocks blocks.old.items + bytes_of (map (line_at log.now) places.now)) }
{
    blocks[block].take(log, places)?;
    Ok(())
}

/// How many bytes the lines of all blocks count for.
pub(crate) fn blocks_bytes(blocks: &[SparseLog]) -> u128
    ensures { result ≡ bytes_of_blocks blocks.now }
{
    let mut total = 0;
    for block in blocks {
        total += u128::from(block.bytes());
    }
    total
}

/// The lines of the blocks on which rows rest, each at its place in a block of the same number.
pub(crate) fn rested(
    alloc: Global,
    blocks: &[SparseLog],
    slots: &[Slot],
) -> Result<Vec<SparseLog>, AllocError>
    requires { AreRowsIn blocks.now slots.now }
    ensures are { IfOk result (λ kept. AreRowsIn kept.items slots.now) }
    ensures rows { IfOk result (λ kept. rows_in kept.items slots.now ≡
        rows_in blocks.now slots.now) }
    ensures few { IfOk result (λ kept. bytes_of_blocks kept.items ≤
        bytes_of_rows (rows_in blocks.now slots.now)) }
    ensures bytes { IfOk result (λ kept.
        bytes_of_blocks kept.items + spare_in slots.now 0 blocks.now ≡
        bytes_of_blocks blocks.now) }
    ensures spare { IfOk result (λ kept. spare_in slots.now 0 kept.items ≡ 0) }
{
    let mut kept = empty_blocks(alloc, blocks.len())?;
    for slot in slots {
        keep_row(alloc, blocks, &slot.row, &mut kept)?;
    }
    Ok(kept)
}

fn empty_blocks(alloc: Global, count: usize) -> Result<Vec<SparseLog>, AllocError>
    ensures count { IfOk result (λ blocks. length blocks.items ≡ count) }
    ensures empty { IfOk result (λ blocks. All (λ b. b ≡ []) blocks.items) }
{
    let mut blocks = Vec::with_capacity(alloc, count)?;
    for _block in 0..count {
        blocks.push(SparseLog::new(alloc))?;
    }
    Ok(blocks)
}

// Keeps the lines of a row, if there is one.
fn keep_row(
    alloc: Global,
    blocks: &[SparseLog],
    row: &Option<Row>,
    kept: &mut Vec<SparseLog>,
) -> Result<(), AllocError>
    requires is { IsRowIn blocks.now row.now }
    requires part { KeepsBlocks kept.old.items blocks.now }
    requires count { length kept.old.items ≡ length blocks.now }
    ensures { OnOk result (IsRowKept blocks.now kept.old.items kept.new.items row.now) }
{
    match row {
        None => Ok(()),
        Some(row) => {
            let places = row.places.list(alloc)?;
            keep_lines(&blocks[row.block], &places, row.block, kept)?;
            Ok(())
        }
    }
}

// Puts the lines of another list at these places of a block.
fn keep_lines(
    from: &SparseLog,
    places: &[u32],
    block: usize,
    kept: &mut Vec<SparseLog>,
) -> Result<(), AllocError>
    requires block { block < length kept.old.items }
    requires there { (i : ℕ) → Contains places.now i → IsThere from.now i }
    requires part { Keeps (block_at kept.old.items block) from.now }
    ensures count { OnOk result (length kept.new.items ≡ length kept.old.items) }
    ensures stand { OnOk result
        (LinesStand (line_in from.now) places.now (block_at kept.new.items block)) }
    ensures part { OnOk result (Keeps (block_at kept.new.items block) from.now) }
    ensures only { OnOk result (AddsOnly (line_in from.now) places.now
        (block_at kept.old.items block) (block_at kept.new.items block)) }
    ensures others { OnOk result ((b : ℕ) → b ≢ block →
        block_at kept.new.items b ≡ block_at kept.old.items b) }
    ensures keeps { OnOk result (KeepsBlocks kept.old.items kept.new.items) }
    ensures bytes { OnOk result (bytes_of_blocks kept.new.items ≤ bytes_of_blocks kept.old.items +
        bytes_of (map (line_in from.now) places.now)) }
{
    kept[block].take_back(from, places)?;
    Ok(())
}
