// The fill per thousand of a load file, worked out in whole numbers on its bytes.

#![tactic(auto)]

ghost use Rattle.std.specs.Prelude.{◌≡◌, ◌*◌, ◌≤◌, true, ◌&&◌, ◌==◌};
ghost use Rattle.std.specs.Float.Ieee.{le};
ghost use Rattle.domain.specs.Bounds.{most_kinds, most_lines};
ghost use Rattle.domain.specs.Refusals.{when};
ghost use Rattle.lists.specs.Below.{sum_below};
ghost use Rattle.file_read.specs.Form.{lines_start, counts_of};
ghost use Rattle.file_read.specs.Reading.{sheet_of};
ghost use Rattle.file_read.specs.Records.{Readable};
ghost use Rattle.fill_thousand.specs.Sides.{most_side, shortest, longest, whole_or_none, side_of};
ghost use Rattle.fill_thousand.specs.Fill.{most_solid, solid_of, uneven, line_volume};
ghost use Rattle.fill_thousand.specs.FileFill.{file_fill};
ghost use Rattle.fill_thousand.specs.Tabled.{Small, Loading, volume_if};
ghost use Rattle.fill_thousand.specs.TableRead.{TableRead};

use domain::{Refusal, refuse};
use file_read::records;

// The ids of a file's kinds, and their volumes.
#[derive(Clone, Copy)]
struct Table {
    ids: [u32; domain::MOST_KINDS],
    solids: [u64; domain::MOST_KINDS],
}

// The whole number that a length from 1 to 10,000 is, or 0 where it has a fraction.
fn whole_or_none(v: f64) -> u64
    requires { (le shortest v && le v longest) ≡ true }
    ensures value { result ≡ whole_or_none v }
    ensures most { result ≤ most_side }
{
    let n = std::num::truncating_f64_to_u64(v);
    if std::num::nearest_u64_to_f64(n) == v {
        return n;
    }
    0
}

// The whole number that a length is, from 1 to 10,000, or 0 where it is none of them.
fn side(v: f64) -> u64
    ensures value { result ≡ side_of v }
    ensures most { result ≤ most_side }
{
    if (1.0 <= v) & (v <= 10000.0) {
        return whole_or_none(v);
    }
    0
}

// Whether one of three lengths is no such number.
fn uneven(size: [f64; 3]) -> bool
    ensures { result ≡ uneven size }
{
    (side(size[0]) == 0) | ((side(size[1]) == 0) | (side(size[2]) == 0))
}

// The volume by three such numbers.
fn solid(size: [f64; 3]) -> u64
    ensures value { result ≡ solid_of size }
    ensures most { result ≤ most_solid }
{
    let w = side(size[0]);
    let d = side(size[1]);
    let h = side(size[2]);
    w * d * h
}

// The table of a file's m kinds, or a refusal where a length of one is no whole number from 1 to 10,000.
fn table_of(f: &[u8], m: usize) -> Result<Table, Refusal>
    requires readable { Readable f.now }
    requires kinds { m ≡ (counts_of f.now).kinds }
    ensures { TableRead (sheet_of f.now) m result }
{
    let mut ids = [0u32; domain::MOST_KINDS];
    let mut solids = [0u64; domain::MOST_KINDS];
    for k in 0..m {
        let kind = records::kind_in(f, k);
        refuse(uneven(kind.size), Refusal::Uneven)?;
        ids[k] = kind.id;
        solids[k] = solid(kind.size);
    }
    Ok(Table { ids, solids })
}

fn volume_if(a: u32, id: u32, v: u64) -> u64
    ensures value { result ≡ when (a == id) v }
    ensures most { result ≤ v }
{
    if a == id { v } else { 0 }
}

// The volume of the kind that has this id, of the first m. It cannot wrap: a volume for each kind at most.
fn line_volume(table: &Table, m: usize, id: u32) -> u64
    requires few { m ≤ most_kinds }
    requires small { Small table.now.solids m }
    ensures { result ≡ sum_below (volume_if table.now.ids table.now.solids id) m }
{
    let mut t = 0;
    for k in 0..m {
        t += volume_if(table.ids[k], id, table.solids[k]);
    }
    t
}

// The volume of the file's n lines, where the table has its m kinds. It cannot wrap: a line is of one kind at most.
fn volume_of(f: &[u8], start: usize, n: usize, table: &Table, m: usize) -> u64
    requires { Loading f.now start n m table.now.ids table.now.solids }
    ensures value { result ≡ sum_below (line_volume (sheet_of f.now).kinds m (sheet_of f.now).lines) n }
    ensures most { result ≤ most_lines * most_solid }
{
    let mut t = 0;
    for i in 0..n {
        let line = records::line_in(f, start, i);
        t += line_volume(table, m, line.id);
    }
    t
}

// The refusal that a file gets, for an uneven length behind all others; else the volume of the lines of known kinds, a thousand times,
// by that of the container, rounded down.
pub fn fill_of(f: &[u8]) -> Result<u64, Refusal>
    ensures { result ≡ file_fill f.now }
{
    let a = file_accept::accept(f)?;
    let container = records::container_in(f);
    refuse(uneven(container.size), Refusal::Uneven)?;
    let table = table_of(f, a.kinds)?;
    let loaded = volume_of(f, a.start, a.lines, &table, a.kinds);
    Ok(loaded * 1000 / solid(container.size))
}
