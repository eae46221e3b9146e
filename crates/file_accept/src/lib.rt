// A load file tested once, on the lent bytes: no sheet is made. Its records are read where they are used.

#![tactic(auto)]

ghost use Rattle.std.specs.Prelude.{◌≡◌};
ghost use Rattle.domain.specs.Refusals.{first_below};
ghost use Rattle.domain.specs.Refusal.{answer_of};
ghost use Rattle.sheet.specs.Sheets.{line_fault_in, sheet_refusal};
ghost use Rattle.file_read.specs.Form.{lines_start, counts_of};
ghost use Rattle.file_read.specs.Reading.{sheet_of};
ghost use Rattle.file_read.specs.Records.{Readable};
ghost use Rattle.file_accept.specs.Parts.{misplaced, kinds_refusal};
ghost use Rattle.file_accept.specs.Accept.{accept_of};

use domain::{Refusal, refuse};
use file_read::records;
use sheet::Counts;

// How many records each section of an accepted file has, and where its lines start and end.
#[derive(Clone, Copy)]
pub struct Accepted {
    pub kinds: usize,
    pub lines: usize,
    pub unplaced: usize,
    pub start: usize,
    pub end: usize,
}

// What the kinds are refused for: kind by kind, then their total. It cannot wrap: at most 64 numbers of 32 bits.
fn kinds_refusal(f: &[u8], n: usize) -> Result<(), Refusal>
    requires { Readable f.now × (n ≡ (counts_of f.now).kinds) }
    ensures { result ≡ answer_of (kinds_refusal (sheet_of f.now)) tt }
{
    let mut ids = [0u32; domain::MOST_KINDS];
    let mut total = 0;
    for k in 0..n {
        let kind = records::kind_in(f, k);
        measures::kind_fault(kind, sheet::is_among(&ids, k, kind.id))?;
        total += u64::from(kind.quantity);
        ids[k] = kind.id;
    }
    refuse(total > domain::MOST_BOXES as u64, Refusal::Count)
}

fn is_misplaced(at: [f64; 3]) -> bool
    ensures { result ≡ misplaced at }
{
    !domain::is_position(at[0]) | (!domain::is_position(at[1]) | !domain::is_position(at[2]))
}

// What the lines are refused for.
fn lines_refusal(f: &[u8], start: usize, n: usize) -> Result<(), Refusal>
    requires { Readable f.now × ((start ≡ lines_start f.now) × (n ≡ (counts_of f.now).lines)) }
    ensures { result ≡ answer_of (first_below (line_fault_in (sheet_of f.now).lines) n) tt }
{
    let mut bad = false;
    for i in 0..n {
        let line = records::line_in(f, start, i);
        bad = bad | is_misplaced(line.at);
    }
    refuse(bad, Refusal::Measure)
}

// What a file of the right shape with these counts, all within their bounds, is refused for.
fn sheet_refusal(f: &[u8], many: Counts, start: usize) -> Result<(), Refusal>
    requires { Readable f.now × ((many ≡ counts_of f.now) × (start ≡ lines_start f.now)) }
    ensures { result ≡ answer_of (sheet_refusal (sheet_of f.now)) tt }
{
    refuse(
        measures::container_fault(records::container_in(f)),
        Refusal::Measure,
    )?;
    kinds_refusal(f, many.kinds)?;
    lines_refusal(f, start, many.lines)
}

// Tests a load file: its shape, then the refusals in their order.
pub fn accept(f: &[u8]) -> Result<Accepted, Refusal>
    ensures { result ≡ accept_of f.now }
{
    let sections = records::sections_of(f).ok_or(Refusal::Shape)?;
    let many = sections.many;
    refuse(sheet::over_count(many), Refusal::Count)?;
    sheet_refusal(f, many, sections.start)?;
    Ok(Accepted {
        kinds: many.kinds,
        lines: many.lines,
        unplaced: many.unplaced,
        start: sections.start,
        end: sections.end,
    })
}
