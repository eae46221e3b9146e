// A load sheet as a value: container, kinds, placement lines and unplaced ids, and the refusal that it gets, if any.
// An order is a sheet too; whoever plans one tests its lines and unplaced ids and then leaves them aside.

#![tactic(auto)]

ghost use Rattle.std.specs.Prelude.{◌≡◌, ◌≤◌, length};
ghost use Rattle.domain.specs.Bounds.{most_kinds};
ghost use Rattle.lists.specs.Below.{sum_below};
ghost use Rattle.domain.specs.Refusals.{first_below};
ghost use Rattle.domain.specs.Refusal.{answer_of};
ghost use Rattle.sheet.specs.Sheets.{blank_kind, blank_line, empty_sheet, among};
ghost use Rattle.sheet.specs.Sheets.{over_count, quantity_of, kind_fault_in, line_fault, line_fault_in, sheet_refusal};

use domain::{Refusal, refuse};
use measures::{Container, Kind};

// A placement line: instance `instance` of the kind `id`, turned to `orientation`, in case `bin`, its near corner at `at`.
#[derive(Clone, Copy)]
pub struct Line {
    pub id: u32,
    pub instance: u32,
    pub orientation: u32,
    pub bin: u32,
    pub at: [f64; 3],
}

#[derive(Clone, Copy)]
pub struct Counts {
    pub kinds: usize,
    pub lines: usize,
    pub unplaced: usize,
}

// The first `many.kinds` of the kinds count, and so for the lines and the unplaced ids.
// Stays: counts beside stores of a fixed size, as a sheet with counts over its stores is refused by 2 (sheet: over_count), and no heap is used.
#[derive(Clone, Copy)]
pub struct Sheet {
    pub many: Counts,
    pub container: Container,
    pub kinds: [Kind; domain::MOST_KINDS],
    pub lines: [Line; domain::MOST_LINES],
    pub unplaced: [u32; domain::MOST_UNPLACED],
}

// A kind that says nothing: what a store of kinds has past those that count.
pub fn blank_kind() -> Kind
    ensures { result ≡ blank_kind }
{
    Kind {
        id: 0,
        quantity: 0,
        size: [0.0, 0.0, 0.0],
        mass: 0.0,
        rule: 0,
        massed: 0,
        filler: 0,
    }
}

// A line that says nothing: what a store of lines has past those that count.
pub fn blank_line() -> Line
    ensures { result ≡ blank_line }
{
    Line {
        id: 0,
        instance: 0,
        orientation: 0,
        bin: 0,
        at: [0.0, 0.0, 0.0],
    }
}

// A sheet with nothing in it. Its container has no size, so it is refused by 3 wherever it is handed in.
pub fn empty_sheet() -> Sheet
    ensures { result ≡ empty_sheet }
{
    let none = [0.0, 0.0, 0.0];
    let many = Counts {
        kinds: 0,
        lines: 0,
        unplaced: 0,
    };
    let container = Container {
        size: none,
        margin: 0.0,
        spacing: 0.0,
        limit: 0.0,
    };
    let kind = blank_kind();
    let line = blank_line();
    Sheet {
        many,
        container,
        kinds: [kind; domain::MOST_KINDS],
        lines: [line; domain::MOST_LINES],
        unplaced: [0u32; domain::MOST_UNPLACED],
    }
}

// Whether a count is over its bound.
pub fn over_count(many: Counts) -> bool
    ensures { result ≡ over_count many }
{
    (many.kinds > domain::MOST_KINDS)
        | ((many.lines > domain::MOST_LINES) | (many.unplaced > domain::MOST_UNPLACED))
}

// Whether the id is among the first n; of more than there are, it is not. No branch, so that many are looked at together.
pub fn is_among(ids: &[u32; domain::MOST_KINDS], n: usize, id: u32) -> bool
    ensures { result ≡ among ids.now id n }
{
    if domain::MOST_KINDS < n {
        return false;
    }
    let mut found = false;
    for other in &ids[..n] {
        found = found | (*other == id);
    }
    found
}

// What the first faulty kind is refused for.
fn kinds_fault(kinds: &[Kind]) -> Result<(), Refusal>
    requires { length kinds.now ≤ most_kinds }
    ensures { result ≡ answer_of (first_below (kind_fault_in kinds.now) (length kinds.now)) tt }
{
    let mut ids = [0u32; domain::MOST_KINDS];
    for (k, kind) in kinds.iter().enumerate() {
        measures::kind_fault(*kind, is_among(&ids, k, kind.id))?;
        ids[k] = kind.id;
    }
    Ok(())
}

// The quantity over all kinds. It cannot wrap: at most 64 numbers of 32 bits.
fn total_quantity(kinds: &[Kind]) -> u64
    requires { length kinds.now ≤ most_kinds }
    ensures { result ≡ sum_below (quantity_of kinds.now) (length kinds.now) }
{
    let mut total = 0;
    for kind in kinds {
        total += u64::from(kind.quantity);
    }
    total
}

// What a line is refused for.
fn line_fault(line: Line) -> Result<(), Refusal>
    ensures { result ≡ answer_of (line_fault line) tt }
{
    let at = line.at;
    let misplaced = !domain::is_position(at[0])
        | (!domain::is_position(at[1]) | !domain::is_position(at[2]));
    refuse(misplaced, Refusal::Measure)
}

// What the first line that is refused is refused for.
fn lines_fault(lines: &[Line]) -> Result<(), Refusal>
    ensures { result ≡ answer_of (first_below (line_fault_in lines.now) (length lines.now)) tt }
{
    for line in lines {
        line_fault(*line)?;
    }
    Ok(())
}

// What a sheet is refused for, in the stated order from 2 on.
pub fn sheet_refusal(s: Sheet) -> Result<(), Refusal>
    ensures { result ≡ answer_of (sheet_refusal s) tt }
{
    refuse(over_count(s.many), Refusal::Count)?;
    refuse(measures::container_fault(s.container), Refusal::Measure)?;
    let kinds = &s.kinds[..s.many.kinds];
    kinds_fault(kinds)?;
    refuse(
        total_quantity(kinds) > domain::MOST_BOXES as u64,
        Refusal::Count,
    )?;
    lines_fault(&s.lines[..s.many.lines])
}
