// The checker: the findings on a load file, on its bytes. RULES: Findings: words

#![tactic(auto)]

ghost use Rattle.std.specs.Prelude.{◌≡◌, ◌+◌, ◌*◌, ◌≤◌, ◌<◌};
ghost use Rattle.check_words.specs.Wrote.{room_for};
ghost use Rattle.domain.specs.Bounds.{most_kinds, most_lines, most_unplaced, most_boxes, few_lines, few_boxes, some_lines, some_boxes};
ghost use Rattle.file_read.specs.Reading.{sheet_of};
ghost use Rattle.file_accept.specs.Accept.{Taken};
ghost use Rattle.check_list.specs.View.{rest_found};
ghost use Rattle.check_list.specs.Held.{Ran, Wide, most_line_words};
ghost use Rattle.check_packing.specs.Lines.{mass};
ghost use Rattle.check_packing.specs.Findings.{view_of, findings};
ghost use Rattle.check_packing.specs.Columns.{Ids, Many, Packed, LinesPut, counts_of, kind_first, Ready, Unmarked};
ghost use Rattle.check_packing.specs.Check.{CheckedFile};

use check_pair::Extent;
use check_words::WORDS;
use domain::Refusal;
use file_accept::Accepted;
use file_read::records;
use sheet::Counts;

mod columns;
mod left;

// A box that takes no room.
const NOWHERE: Extent = Extent {
    min: [0.0, 0.0, 0.0],
    max: [0.0, 0.0, 0.0],
};

// So many words are enough for whatever is found.
fn room(m: usize, n: usize, u: usize) -> usize
    requires { (m ≤ most_kinds) × ((n ≤ most_lines) × (u ≤ most_unplaced)) }
    ensures { result ≡ 5 * room_for m n u }
{
    WORDS * (6 * n + n * n / 2 + m + u + 1)
}

// What the lines gave: the words written so far, and the mass.
#[derive(Clone, Copy)]
struct Lined {
    words: usize,
    mass: f64,
}

fn counts_of(a: Accepted) -> Counts
    ensures { result ≡ counts_of a }
{
    Counts {
        kinds: a.kinds,
        lines: a.lines,
        unplaced: a.unplaced,
    }
}

// The findings of the lines and of their pairs, from the first cell on; and how many copies of each kind are packed. The columns of the
// lines are lent, and a mark for each box.
fn put_columns(
    f: &[u8],
    a: Accepted,
    ids: &[u32; domain::MOST_KINDS],
    many: &[u32; domain::MOST_KINDS],
    packed: &mut [u32; domain::MOST_KINDS],
    out: &mut [u64],
    which: &mut [usize],
    again: &mut [bool],
    boxes: &mut [Extent],
    seen: &mut [bool],
) -> Lined
    requires { Ready f.now a ids.now many.now packed.old × Wide a.lines which.old again.old boxes.old
        × Unmarked (sheet_of f.now) a.kinds seen.old }
    ensures { LinesPut (sheet_of f.now) out.old packed.new result out.new }
{
    let mut firsts = [0u32; domain::MOST_KINDS];
    columns::first_column(f, a, many, &mut firsts);
    let mass = columns::line_columns(f, a, ids, which, boxes);
    columns::mark_columns(f, a, which, many, &firsts, again, packed, seen);
    let c = records::container_in(f);
    let words = check_list::line_findings(out, f, a.start, counts_of(a), c, which, again, boxes);
    Lined { words, mass }
}

// The same with columns for so many lines and a mark for so many boxes.
#[inline(never)]
fn put_within<const LINES: usize, const BOXES: usize>(
    f: &[u8],
    a: Accepted,
    ids: &[u32; domain::MOST_KINDS],
    many: &[u32; domain::MOST_KINDS],
    packed: &mut [u32; domain::MOST_KINDS],
    out: &mut [u64],
) -> Lined
    requires ready { Ready f.now a ids.now many.now packed.old }
    requires lines { a.lines ≤ LINES }
    requires boxes { kind_first (sheet_of f.now) a.kinds ≤ BOXES }
    requires some { 0 < BOXES }
    requires few { (LINES ≤ most_lines) × (BOXES ≤ most_boxes) }
    ensures { LinesPut (sheet_of f.now) out.old packed.new result out.new }
{
    let mut which = [0usize; LINES];
    let mut again = [false; LINES];
    let mut boxes = [NOWHERE; LINES];
    let mut seen = [false; BOXES];
    put_columns(
        f, a, ids, many, packed, out, &mut which, &mut again, &mut boxes, &mut seen,
    )
}

// The same with columns for few lines and boxes.
fn put_few(
    f: &[u8],
    a: Accepted,
    ids: &[u32; domain::MOST_KINDS],
    many: &[u32; domain::MOST_KINDS],
    packed: &mut [u32; domain::MOST_KINDS],
    out: &mut [u64],
) -> Lined
    requires ready { Ready f.now a ids.now many.now packed.old }
    requires lines { a.lines ≤ few_lines }
    requires boxes { kind_first (sheet_of f.now) a.kinds ≤ few_boxes }
    ensures { LinesPut (sheet_of f.now) out.old packed.new result out.new }
{
    put_within::<{ domain::FEW_LINES }, { domain::FEW_BOXES }>(f, a, ids, many, packed, out)
}

// The same with columns for some of them.
fn put_some(
    f: &[u8],
    a: Accepted,
    ids: &[u32; domain::MOST_KINDS],
    many: &[u32; domain::MOST_KINDS],
    packed: &mut [u32; domain::MOST_KINDS],
    out: &mut [u64],
) -> Lined
    requires ready { Ready f.now a ids.now many.now packed.old }
    requires lines { a.lines ≤ some_lines }
    requires boxes { kind_first (sheet_of f.now) a.kinds ≤ some_boxes }
    ensures { LinesPut (sheet_of f.now) out.old packed.new result out.new }
{
    put_within::<{ domain::SOME_LINES }, { domain::SOME_BOXES }>(f, a, ids, many, packed, out)
}

// The same for every sheet, with columns of the least size that does: one without lines has none, and no column of lines is made for it.
fn put_lines(
    f: &[u8],
    a: Accepted,
    ids: &[u32; domain::MOST_KINDS],
    many: &[u32; domain::MOST_KINDS],
    packed: &mut [u32; domain::MOST_KINDS],
    out: &mut [u64],
    all: u32,
) -> Lined
    requires ready { Ready f.now a ids.now many.now packed.old }
    requires all { all ≡ kind_first (sheet_of f.now) a.kinds }
    ensures { LinesPut (sheet_of f.now) out.old packed.new result out.new }
{
    if a.lines == 0 {
        return Lined {
            words: 0,
            mass: 0.0,
        };
    }
    let boxes = all as usize;
    if (a.lines <= domain::FEW_LINES) & (boxes <= domain::FEW_BOXES) {
        return put_few(f, a, ids, many, packed, out);
    }
    if (a.lines <= domain::SOME_LINES) & (boxes <= domain::SOME_BOXES) {
        return put_some(f, a, ids, many, packed, out);
    }
    put_within::<{ domain::MOST_LINES }, { domain::MOST_BOXES }>(f, a, ids, many, packed, out)
}

// The findings on the mass and the unplaced list, behind those of the lines; and where they end.
fn put_rest(
    f: &[u8],
    a: Accepted,
    l: Lined,
    ids: &[u32; domain::MOST_KINDS],
    many: &[u32; domain::MOST_KINDS],
    packed: &[u32; domain::MOST_KINDS],
    out: &mut [u64],
) -> usize
    requires { Taken f.now a × (Ids (sheet_of f.now) a.kinds ids.now × (Many (sheet_of f.now) a.kinds many.now
        × (Packed (sheet_of f.now) a.kinds packed.now × ((l.words ≤ most_line_words) × (l.mass ≡ mass (sheet_of f.now)))))) }
    ensures { Ran out.old l.words (a.kinds + 1 + a.unplaced) (rest_found (view_of (sheet_of f.now))) result out.new }
{
    let mut short = [false; domain::MOST_KINDS];
    let mut listed = [false; domain::MOST_KINDS];
    columns::short_column(a.kinds, many, packed, &mut short);
    left::listed_column(f, a, ids, &mut listed);
    let c = records::container_in(f);
    let p = check_list::kind_findings(out, l.words, counts_of(a), c, l.mass, ids, &short, &listed);
    left::put_wrong(f, a, ids, &short, out, p)
}

// All findings, from the first cell on as far as there are cells; and how many words they are.
fn put_all(f: &[u8], a: Accepted, out: &mut [u64]) -> usize
    requires { Taken f.now a }
    ensures { Ran out.old 0 (room_for a.kinds a.lines a.unplaced) (findings (sheet_of f.now)) result out.new }
{
    let mut ids = [0u32; domain::MOST_KINDS];
    let mut many = [0u32; domain::MOST_KINDS];
    let mut packed = [0u32; domain::MOST_KINDS];
    let all = columns::kind_columns(f, a, &mut ids, &mut many);
    let l = put_lines(f, a, &ids, &many, &mut packed, out, all);
    put_rest(f, a, l, &ids, &many, &packed, out)
}

// The findings on an accepted file. Where the room lent is enough whatever is found, they are written in one run; else they are
// counted first, and a file without findings is not gone through again.
fn list(f: &[u8], a: Accepted, out: &mut [u64]) -> Result<usize, Refusal>
    requires { Taken f.now a }
    ensures { CheckedFile f.now out.old result out.new }
{
    if room(a.kinds, a.lines, a.unplaced) <= out.len() {
        return Ok(put_all(f, a, out) / WORDS);
    }
    let mut none = [0u64; 1];
    let n = put_all(f, a, &mut none);
    if n == 0 {
        return Ok(0);
    }
    if out.len() < n {
        return Err(Refusal::Room(n / WORDS));
    }
    put_all(f, a, out);
    Ok(n / WORDS)
}

// Checks a load file, and says how many findings there are. They go to the lent cells, five words each; where they have no room,
// nothing is written, and the refusal tells their number.
pub fn check_packing(file: &[u8], out: &mut [u64]) -> Result<usize, Refusal>
    ensures { CheckedFile file.now out.old result out.new }
{
    let a = file_accept::accept(file)?;
    list(file, a, out)
}
