// A plan whose lines stand in lent memory, handed out into lent words.
ghost use Rattle.std.specs.Prelude.{◌≡◌, ◌*◌, ◌≤◌, length};
ghost use Rattle.lists.specs.Rows.{wrote};
ghost use Rattle.plan_sheet.specs.Hand.{line_words};
ghost use Rattle.plan_sheet.specs.Lent.{Handed};

use crate::{Packed, Told, WORDS, put_line};
use domain::{Refusal, refuse};
use plan_unplaced::Left;
use sheet::Line;

// The words of the first n lines, one line after the other. The words past them stay.
fn put_lines(out: &mut [u64], lines: &[Line], n: usize)
    requires { (n ≤ length lines.now) × (n * 6 ≤ length out.old) }
    ensures { out.new ≡ wrote (line_words lines.now) 6 n out.old }
{
    for i in 0..n {
        put_line(&mut out[..], i * WORDS, lines[i]);
    }
}

// Hands a plan out: its lines into lent words, six to a line, the rest as the answer. More lines than are lent are refused by 2,
// as more lines or ids than there may be are, and fewer words than the lines need by 6. A refusal changes no word.
pub fn hand_lines(
    told: Told,
    left: Left,
    lines: &[Line],
    slots: &mut [u64],
) -> Result<Packed, Refusal>
    ensures { Handed told left lines.now slots.old result slots.new }
{
    let placed = told.placed;
    refuse(lines.len() < placed, Refusal::Count)?;
    let over = (placed > domain::MOST_LINES) | (left.count > domain::MOST_KINDS);
    refuse(over, Refusal::Count)?;
    refuse(slots.len() / WORDS < placed, Refusal::Room(placed))?;
    put_lines(slots, lines, placed);
    let ids = left.ids;
    Ok(Packed {
        placed,
        considered: told.considered,
        utilization: told.utilization,
        unplaced: left.count,
        ids,
    })
}
