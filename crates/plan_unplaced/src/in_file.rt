// The unplaced list of an order in a load file: its kinds are read out of the bytes where they are used.
ghost use Rattle.std.specs.Prelude.{◌≡◌, false, ◌≤◌, length};
ghost use Rattle.domain.specs.Bounds.{most_kinds, most_lines};
ghost use Rattle.lists.specs.Table.{table, filled};
ghost use Rattle.sheet.specs.Sheets.{line_at};
ghost use Rattle.plan_unplaced.specs.Left.{short_kind, left_after, left_of};
ghost use Rattle.file_read.specs.Reading.{sheet_of};
ghost use Rattle.file_accept.specs.Accept.{Taken};
ghost use Rattle.plan_unplaced.specs.InFile.{kinds_in, file_unplaced};
ghost use Rattle.plan_unplaced.specs.Marks.{Beside};
ghost use Rattle.plan_unplaced.specs.Short.{id_at};

use crate::{Left, NO_LEFT, is_short, push_if};
use domain::{Refusal, refuse};
use file_accept::Accepted;
use file_read::records;
use sheet::Line;

// The ids of the first n lines, side by side.
fn put_ids(lines: &[Line], n: usize, ids: &mut [u32; domain::MOST_LINES])
    requires { (n ≤ most_lines) × (n ≤ length lines.now) }
    ensures { ids.new ≡ filled ids.old (id_at lines.now) n }
{
    for j in 0..n {
        ids[j] = lines[j].id;
    }
}

// Which of the first m kinds of a file are short.
fn flags_in(
    f: &[u8],
    m: usize,
    lines: &[Line],
    ids: &[u32; domain::MOST_LINES],
    n: usize,
) -> [bool; domain::MOST_KINDS]
    requires { (m ≤ most_kinds) × (n ≤ most_lines) × (n ≤ length lines.now) × Beside lines.now n ids.now }
    ensures { result ≡ table false most_kinds (short_kind (kinds_in f.now m) lines.now n) m }
{
    let mut flags = [false; domain::MOST_KINDS];
    for k in 0..m {
        let kind = records::kind_in(f, k);
        flags[k] = is_short(lines, ids, n, kind.id, kind.quantity);
    }
    flags
}

// The ids of those of the first m kinds of a file that are flagged.
fn listed_in(f: &[u8], m: usize, flags: &[bool; domain::MOST_KINDS]) -> Left
    requires { m ≤ most_kinds }
    ensures { result ≡ left_after (kinds_in f.now m) flags.now m }
{
    let mut left = NO_LEFT;
    for k in 0..m {
        let kind = records::kind_in(f, k);
        left = push_if(left, flags[k], kind.id);
    }
    left
}

// The ids of the short ones of the first m kinds of a file, by the first n of the lines. Refused by 2 for a count over its
// bound or over the lines there are. A kind that the bytes do not have says nothing.
pub fn left_in(f: &[u8], m: usize, lines: &[Line], n: usize) -> Result<Left, Refusal>
    ensures { result ≡ left_of (kinds_in f.now m) m lines.now n }
{
    let over = (m > domain::MOST_KINDS) | (n > domain::MOST_LINES);
    refuse(over | (n > lines.len()), Refusal::Count)?;
    let mut ids = [0; domain::MOST_LINES];
    put_ids(lines, n, &mut ids);
    let flags = flags_in(f, m, lines, &ids, n);
    Ok(listed_in(f, m, &flags))
}

// A file's lines.
fn put_lines(f: &[u8], a: Accepted, lines: &mut [Line; domain::MOST_LINES])
    requires { Taken f.now a }
    ensures { lines.new ≡ filled lines.old (line_at (sheet_of f.now)) a.lines }
{
    for i in 0..a.lines {
        lines[i] = records::line_in(f, a.start, i);
    }
}

// The unplaced list of a load file by its own lines; what it lists as unplaced itself is tested and left aside. Refused as reading it is.
pub fn unplaced_list(file: &[u8]) -> Result<Left, Refusal>
    ensures { result ≡ file_unplaced file.now }
{
    let a = file_accept::accept(file)?;
    let mut lines = [sheet::blank_line(); domain::MOST_LINES];
    put_lines(file, a, &mut lines);
    left_in(file, a.kinds, &lines, a.lines)
}
