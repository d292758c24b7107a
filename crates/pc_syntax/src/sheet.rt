// The reader of sheets, line by line.
ghost use Rattle.std.specs.Prelude.{◌≡◌, ◌↔◌, ◌≤◌, ◌++◌, ◌∷◌, [], length, IfOk, IsTrue};
ghost use Rattle.pc_name.specs.Names.{most_name_bytes};
ghost use Rattle.pc_syntax.specs.Tree.{declared_of, sheet_of};
ghost use Rattle.pc_syntax.specs.Sheet.{is_of_second, declared_from, SheetReading, IsSheetReading, HasUniverseFirst};
ghost use Rattle.pc_syntax.specs.Sized.{HasSizedRules, HasNestedRules};
ghost use Rattle.pc_syntax.specs.Line.{heading, begins};
ghost use Rattle.pc_syntax.specs.Part.{is_too_new, next_part, part_after, declared};
ghost use Rattle.pc_syntax.specs.Told.{form_of, sheet_fault_of, misplaced_as, IsLineTaken, IsSheetTold, TellsSheet};

use crate::fault::LineFault;
use crate::line::LineTree;
use crate::read::read_line;
use crate::tree::{Declaration, SheetFault, SheetTree};
use pc_formula::has_count;
use pc_lines::next_line;
use std::alloc::{AllocError, Global};

/// The version of a sheet: `sheet 1`, or `sheet 2` with its `also` lines and counting quantifiers.
#[derive(Clone, Copy, PartialEq, Eq)]
pub enum Version {
    First,
    Second,
}

/// Where in a sheet a line stands: before its heading, before its first rule, behind it, or behind `begin`.
#[derive(Clone, Copy, PartialEq, Eq)]
pub enum Part {
    Heading,
    Universe(Version),
    Rules(Version),
    End,
}

// The part behind a line, where the line may stand in its own.
fn next_part(part: Part, line: &LineTree) -> Option<Part>
    ensures { result ≡ next_part part (form_of line.now) }
{
    match line {
        LineTree::Nothing => Some(part),
        LineTree::Heading(number) => part_after_heading(part, *number),
        LineTree::Begins => part_after_begin(part),
        LineTree::Declares(declared) => part_after(part, declared),
    }
}

// The part behind a heading with this number.
fn part_after_heading(part: Part, number: u64) -> Option<Part>
    ensures { result ≡ next_part part (heading number) }
{
    match (part, number) {
        (Part::Heading, 1) => Some(Part::Universe(Version::First)),
        (Part::Heading, 2) => Some(Part::Universe(Version::Second)),
        _ => None,
    }
}

// The part behind `begin`.
fn part_after_begin(part: Part) -> Option<Part>
    ensures { result ≡ next_part part begins }
{
    match part {
        Part::Universe(_) | Part::Rules(_) => Some(Part::End),
        _ => None,
    }
}

// The part behind a declaration.
fn part_after(part: Part, declared: &Declaration) -> Option<Part>
    ensures { result ≡ part_after part (declared_of declared.now) }
{
    match part {
        Part::Universe(version) => part_after_universe(version, declared),
        Part::Rules(version) => part_after_rules(version, declared),
        _ => None,
    }
}

// The same where no rule stood before.
fn part_after_universe(version: Version, declared: &Declaration) -> Option<Part>
    ensures { result ≡ part_after (Part.Universe version) (declared_of declared.now) }
{
    if is_too_new(version, declared) {
        return None;
    }
    match declared {
        Declaration::Rule(_) => Some(Part::Rules(version)),
        _ => Some(Part::Universe(version)),
    }
}

// The same behind a rule.
fn part_after_rules(version: Version, declared: &Declaration) -> Option<Part>
    ensures { result ≡ part_after (Part.Rules version) (declared_of declared.now) }
{
    if is_too_new(version, declared) {
        return None;
    }
    match declared {
        Declaration::Rule(_) | Declaration::Enter(..) | Declaration::Also(..) => {
            Some(Part::Rules(version))
        }
        _ => None,
    }
}

// Whether the declaration is a line of `sheet 2` alone, in a `sheet 1`.
fn is_too_new(version: Version, declared: &Declaration) -> bool
    ensures { result ≡ is_too_new version (declared_of declared.now) }
{
    match version {
        Version::First => is_of_second(declared),
        Version::Second => false,
    }
}

// Whether the declaration is a line of `sheet 2` alone.
fn is_of_second(declared: &Declaration) -> bool
    ensures { result ≡ is_of_second (declared_of declared.now) }
{
    match declared {
        Declaration::Also(..) => true,
        Declaration::Rule(rule) => has_count(&rule.formula),
        _ => false,
    }
}

fn is_end(part: Part) -> bool
    ensures { IsTrue result ↔ (part ≡ Part.End) }
{
    part == Part::End
}

// The fault of a sheet whose line with this number has the fault.
fn sheet_fault(fault: LineFault, line: u32) -> SheetFault
    ensures { result ≡ sheet_fault_of fault line }
{
    match fault {
        LineFault::NotUtf8 => SheetFault::NotUtf8 { line },
        LineFault::TooDeep => SheetFault::TooDeep { line },
        LineFault::Syntax => SheetFault::Syntax { line },
        LineFault::Memory => SheetFault::Memory,
    }
}

// The fault of a sheet whose line with this number may not stand in its part.
fn misplaced(part: Part, form: &LineTree, line: u32) -> SheetFault
    ensures { result ≡ misplaced_as part (form_of form.now) line }
{
    match (part, form) {
        (Part::Heading, LineTree::Heading(_)) => SheetFault::WrongVersion { line },
        _ => SheetFault::Syntax { line },
    }
}

// Adds what the line declares.
fn add(
    declarations: &mut Vec<(u32, Declaration)>,
    number: u32,
    line: LineTree,
) -> Result<(), AllocError>
    ensures { IfOk result (λ _. declared declarations.new.items ≡ declared declarations.old.items ++
        declared_from number (form_of line ∷ [])) }
{
    if let LineTree::Declares(declared) = line {
        declarations.push((number, declared))?;
    }
    Ok(())
}

// Reads the line with this number, adds what it declares, and gives the part behind it.
fn take_line(
    alloc: Global,
    part: Part,
    number: u32,
    line: &[u8],
    declarations: &mut Vec<(u32, Declaration)>,
) -> Result<Part, SheetFault>
    requires { length line.now ≤ most_name_bytes }
    ensures { IsLineTaken part number line.now (declared declarations.old.items)
        (declared declarations.new.items) result }
{
    let form = match read_line(alloc, line) {
        Ok(form) => form,
        Err(fault) => return Err(sheet_fault(fault, number)),
    };
    let Some(next) = next_part(part, &form) else {
        return Err(misplaced(part, &form, number));
    };
    add(declarations, number, form)?;
    Ok(next)
}

/// The declarations of a sheet's text, line by line, or the fault of its first line at fault.
///
/// The text is split into lines at LF, and one CR before it is dropped. The first line that is neither blank nor a
/// comment is `sheet 1` or `sheet 2`, and the sheet ends with its `begin` line, behind which blank lines and comments
/// alone stand. An `also` line and a rule with a counting quantifier may stand in a `sheet 2` alone.
/// On one line the order of faults is `NotUtf8`, `TooDeep`, `Syntax`, `WrongVersion`. A text whose lines are all right
/// and that has no `begin` line is `NoBegin`.
pub fn parse_sheet(alloc: Global, bytes: &[u8]) -> Result<SheetTree, SheetFault>
    requires { length bytes.now ≤ 4194304 }
    ensures told { IsSheetTold bytes.now result }
    ensures only { (r : SheetReading) → IsSheetReading bytes.now r → TellsSheet result r }
    ensures ordered { IfOk result (λ t. HasUniverseFirst (sheet_of t)) }
    ensures sized { IfOk result (λ t. HasSizedRules (sheet_of t)) }
    ensures nested { IfOk result (λ t. HasNestedRules (sheet_of t)) }
{
    let mut declarations = Vec::new(alloc);
    let mut part = Part::Heading;
    let mut number = 1;
    let mut rest = bytes;
    'lines: while let Some((line, after)) = next_line(rest) {
        part = take_line(alloc, part, number, line, &mut declarations)?;
        number += 1;
        rest = after;
    }
    if !is_end(part) {
        return Err(SheetFault::NoBegin);
    }
    Ok(SheetTree { declarations })
}
