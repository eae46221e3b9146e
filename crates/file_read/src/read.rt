// A load file's records, and the sheet that they make.
ghost use Rattle.std.specs.Prelude.{◌≡◌, ℕ, List, ◌+◌, ◌*◌, ◌≤◌, length};
ghost use Rattle.lists.specs.Table.{filled};
ghost use Rattle.file_bytes.specs.Bytes.{u32_at};
ghost use Rattle.file_read.specs.Form.{kind_bytes, line_bytes, id_bytes, lines_start, unplaced_start, counts_of};
ghost use Rattle.file_read.specs.Reading.{container_from, kind_from, line_from, sheet_of};
ghost use Rattle.file_read.specs.Records.{Readable};

use crate::{layout, le};
use measures::{Container, Kind};
use sheet::{Counts, Line, Sheet};

pub(crate) fn container_at(f: &[u8]) -> Container
    ensures { result ≡ container_from f.now }
{
    let width = file_bytes::f64_at(f, layout::BLOCK_WIDTH);
    let depth = file_bytes::f64_at(f, layout::BLOCK_DEPTH);
    let height = file_bytes::f64_at(f, layout::BLOCK_HEIGHT);
    let margin = file_bytes::f64_at(f, layout::BLOCK_MARGIN);
    let spacing = file_bytes::f64_at(f, layout::BLOCK_SPACING);
    let limit = file_bytes::f64_at(f, layout::BLOCK_LIMIT);
    Container {
        size: [width, depth, height],
        margin,
        spacing,
        limit,
    }
}

pub(crate) fn kind_at(f: &[u8], p: usize) -> Kind
    requires { p + kind_bytes ≤ length f.now }
    ensures { result ≡ kind_from f.now p }
{
    let id = le::word(f, p + layout::KIND_ID);
    let quantity = le::word(f, p + layout::KIND_QUANTITY);
    let width = le::float(f, p + layout::KIND_WIDTH);
    let depth = le::float(f, p + layout::KIND_DEPTH);
    let height = le::float(f, p + layout::KIND_HEIGHT);
    let mass = le::float(f, p + layout::KIND_MASS);
    let rule = file_bytes::byte_at(f, p + layout::KIND_RULE);
    let massed = file_bytes::byte_at(f, p + layout::KIND_MASSED);
    let filler = file_bytes::u16_at(f, p + layout::KIND_FILLER);
    Kind {
        id,
        quantity,
        size: [width, depth, height],
        mass,
        rule,
        massed,
        filler,
    }
}

pub(crate) fn line_at(f: &[u8], p: usize) -> Line
    requires { p + line_bytes ≤ length f.now }
    ensures { result ≡ line_from f.now p }
{
    let id = le::word(f, p + layout::LINE_ID);
    let instance = le::word(f, p + layout::LINE_INSTANCE);
    let orientation = le::word(f, p + layout::LINE_ORIENTATION);
    let bin = le::word(f, p + layout::LINE_BIN);
    let x = le::float(f, p + layout::LINE_X);
    let y = le::float(f, p + layout::LINE_Y);
    let z = le::float(f, p + layout::LINE_Z);
    Line {
        id,
        instance,
        orientation,
        bin,
        at: [x, y, z],
    }
}

// A record of a load file: it has so many bytes, and is read where they are all there.
trait Record: Copy {
    ghost WIDTH: { ℕ };

    ghost from: { List ℕ → ℕ → Self };

    const WIDTH: usize;

    fn read(f: &[u8], p: usize) -> Self
        requires { p + WIDTH ≤ length f.now }
        ensures { result ≡ from f.now p };
}

impl Record for Kind {
    ghost WIDTH = { kind_bytes };

    ghost from = { kind_from };

    const WIDTH: usize = layout::KIND;

    fn read(f: &[u8], p: usize) -> Kind {
        kind_at(f, p)
    }
}

impl Record for Line {
    ghost WIDTH = { line_bytes };

    ghost from = { line_from };

    const WIDTH: usize = layout::LINE;

    fn read(f: &[u8], p: usize) -> Line {
        line_at(f, p)
    }
}

// An unplaced id.
impl Record for u32 {
    ghost WIDTH = { id_bytes };

    ghost from = { u32_at };

    const WIDTH: usize = layout::ID;

    fn read(f: &[u8], p: usize) -> u32 {
        le::word(f, p)
    }
}

// Stores the n records from `start` on in the first cells.
fn fill_table<T: Record, const N: usize>(records: &mut [T; N], f: &[u8], start: usize, n: usize)
    requires cells { n ≤ N }
    requires within { start + n * T.WIDTH ≤ length f.now }
    ensures { records.new ≡ filled records.old (λ k. T.from f.now (start + k * T.WIDTH)) n }
{
    for k in 0..n {
        records[k] = T::read(f, start + k * T::WIDTH);
    }
}

// The sheet that a file of the right shape says, with counts within their bounds and these starts of the lines and the unplaced ids.
pub(crate) fn sheet_of(f: &[u8], many: Counts, start: usize, end: usize) -> Sheet
    requires { Readable f.now × ((many ≡ counts_of f.now) × ((start ≡ lines_start f.now) × (end ≡ unplaced_start f.now))) }
    ensures { result ≡ sheet_of f.now }
{
    let container = container_at(f);
    let mut kinds = [sheet::blank_kind(); domain::MOST_KINDS];
    fill_table(&mut kinds, f, layout::BLOCK, many.kinds);
    let mut lines = [sheet::blank_line(); domain::MOST_LINES];
    fill_table(&mut lines, f, start, many.lines);
    let mut unplaced = [0; domain::MOST_UNPLACED];
    fill_table(&mut unplaced, f, end, many.unplaced);
    Sheet {
        many,
        container,
        kinds,
        lines,
        unplaced,
    }
}
