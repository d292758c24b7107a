//! The names of counters and of their axioms.
ghost use Rattle.std.specs.Prelude.{◌≡◌, ◌<◌, ◌≤◌, [], OnOk, map};
ghost use Rattle.std.specs.List.{flat_map, range_with_len};
ghost use Rattle.pc_accept.specs.Axioms.{axiom_node};
ghost use Rattle.pc_ground.specs.Variables.{counters_below};
ghost use Rattle.pc_ground.specs.Ground.{counter_axioms, counters_axioms};
ghost use Rattle.pc_ground.specs.Naming.{counter_numbers, name_of, named};

use crate::naming::child_path;
use pc_axiom_names::{AxiomRef, Names};
use pc_sheet::NodePath;
use std::alloc::{AllocError, Global};

/// Names the clauses of a node that have these numbers.
fn name_numbers(names: &mut Names, path: &NodePath, numbers: &[u32]) -> Result<(), AllocError>
    ensures { OnOk result
        (names.new ≡ named names.old [] (map (axiom_node path.now.rule path.now.steps.items)
        numbers.now)) }
{
    for number in numbers {
        names.add_axiom(AxiomRef::Node(path, *number))?;
    }
    Ok(())
}

/// Names the clauses of the counter that at least `j + 1` of the first `i + 1` values make the body true.
fn name_counter(names: &mut Names, path: &NodePath, i: u32, j: u32) -> Result<(), AllocError>
    ensures { OnOk result
        (names.new ≡ named names.old [] (map (axiom_node path.now.rule path.now.steps.items)
        (counter_numbers i j))) }
{
    if i == 0 {
        if j == 0 {
            name_numbers(names, path, &[1, 4])
        } else {
            name_numbers(names, path, &[1, 2])
        }
    } else if j == 0 {
        name_numbers(names, path, &[1, 3, 4])
    } else {
        name_numbers(names, path, &[1, 2, 3, 4])
    }
}

/// Names the counters, as nodes.
pub(crate) fn name_counter_nodes(
    alloc: Global,
    names: &mut Names,
    path: &NodePath,
    values: u32,
    threshold: u32,
) -> Result<(), AllocError>
    requires values { values ≤ 256 }
    requires threshold { threshold ≤ 65536 }
    ensures { OnOk result
        (names.new ≡ named names.old (counters_below path.now.rule path.now.steps.items values
        threshold) []) }
{
    for q in 0..values * threshold {
        let counter = child_path(alloc, path, values + q)?;
        names.add_node(counter)?;
    }
    Ok(())
}

/// Names the clauses of the counters of the first `i + 1` values.
fn name_counters_of(
    alloc: Global,
    names: &mut Names,
    path: &NodePath,
    values: u32,
    threshold: u32,
    i: u32,
) -> Result<(), AllocError>
    requires values { values ≤ 256 }
    requires threshold { threshold ≤ 65536 }
    requires i { i < values }
    ensures { OnOk result
        (names.new ≡
        named names.old []
        (map name_of
        (flat_map (counter_axioms path.now.rule path.now.steps.items values threshold i)
        (range_with_len 0 threshold)))) }
{
    for j in 0..threshold {
        let counter = child_path(alloc, path, values + (i * threshold + j))?;
        name_counter(names, &counter, i, j)?;
    }
    Ok(())
}

/// Names the clauses of all counters.
pub(crate) fn name_counters(
    alloc: Global,
    names: &mut Names,
    path: &NodePath,
    values: u32,
    threshold: u32,
) -> Result<(), AllocError>
    requires values { values ≤ 256 }
    requires threshold { threshold ≤ 65536 }
    ensures { OnOk result
        (names.new ≡
        named names.old []
        (map name_of (counters_axioms path.now.rule path.now.steps.items values threshold))) }
{
    for i in 0..values {
        name_counters_of(alloc, names, path, values, threshold, i)?;
    }
    Ok(())
}
