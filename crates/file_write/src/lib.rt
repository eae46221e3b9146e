// Writing a load file, form 1: a sheet to bytes.

#![tactic(auto)]

ghost use Rattle.std.specs.Prelude.{◌≡◌, length};
ghost use Rattle.file_write.specs.Planned.{over_counts};
ghost use Rattle.file_write.specs.PlanStores.{Told};
ghost use Rattle.file_write.specs.Writing.{written_of, bytes_after};

use domain::{Refusal, refuse};
use file_read::layout;
use sheet::{Counts, Line, Sheet};

mod plan;
mod write;

// Writes a sheet as a load file at the start of the lent bytes, if it is in the domain and they are enough: the length written.
pub fn write_sheet(s: Sheet, out: &mut [u8]) -> Result<usize, Refusal>
    ensures answer { result ≡ written_of s (length out.old) }
    ensures bytes { out.new ≡ bytes_after s out.old }
{
    sheet::sheet_refusal(s)?;
    let length = write::file_length(s.many);
    refuse(out.len() < length, Refusal::Room(length))?;
    write::put_sheet(out, s);
    Ok(length)
}

fn over_counts(many: Counts) -> bool
    ensures { result ≡ over_counts many }
{
    (many.kinds > domain::MOST_KINDS)
        | (many.lines > domain::MOST_LINES)
        | (many.unplaced > domain::MOST_KINDS)
}

// Writes a planned sheet at the start of the lent bytes: the container block and the kinds are the order's bytes, the lines and the ids of what
// was left are given. The order was accepted and has so many kinds; counts over their bounds or over the lines lent get 2, and an order that
// does not hold its kinds 1.
pub fn write_plan(
    order: &[u8],
    kinds: usize,
    lines: &[Line],
    placed: usize,
    left: &[u32; domain::MOST_KINDS],
    unplaced: usize,
    out: &mut [u8],
) -> Result<usize, Refusal>
    ensures { Told order.now (record { kinds = kinds; lines = placed; unplaced = unplaced })
        lines.now
        left.now out.old out.new result }
{
    let many = Counts {
        kinds,
        lines: placed,
        unplaced,
    };
    refuse(over_counts(many) | (lines.len() < placed), Refusal::Count)?;
    let start = layout::BLOCK + kinds * layout::KIND;
    refuse(order.len() < start, Refusal::Shape)?;
    let needed = write::file_length(many);
    refuse(out.len() < needed, Refusal::Room(needed))?;
    plan::put_head(out, order, start);
    plan::put_lines(out, start, lines, placed);
    plan::put_left(out, start + placed * layout::LINE, left, unplaced);
    write::put_trailer(out, many);
    Ok(needed)
}
