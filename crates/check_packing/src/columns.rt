// What is read off an accepted load file once, before its findings are listed: columns by kind and by line.
ghost use Rattle.std.specs.Prelude.{◌≡◌, ℕ, ◌*◌, ◌≤◌, ◌<◌, length, replicate};
ghost use Rattle.domain.specs.Bounds.{most_kinds};
ghost use Rattle.lists.specs.Table.{filled};
ghost use Rattle.file_read.specs.Reading.{sheet_of};
ghost use Rattle.file_accept.specs.Accept.{Taken};
ghost use Rattle.check_packing.specs.Lines.{mass_of, mass_with, mass_below, repeats};
ghost use Rattle.check_packing.specs.Columns.{kind_id, kind_many, kind_first, place_below, Ids, Many, Packed, kind_named, box_read};
ghost use Rattle.check_packing.specs.Columns.{short_in, slot_of, MarksRead, Unmarked};

use check_pair::Extent;
use file_accept::Accepted;
use file_read::records;
use measures::Kind;

// The ids and quantities of the kinds, and how many boxes there are in all.
pub(crate) fn kind_columns(
    f: &[u8],
    a: Accepted,
    ids: &mut [u32; domain::MOST_KINDS],
    many: &mut [u32; domain::MOST_KINDS],
) -> u32
    requires { Taken f.now a }
    ensures { (result ≡ kind_first (sheet_of f.now) a.kinds)
        × (ids.new ≡ filled ids.old (kind_id (sheet_of f.now)) a.kinds)
        × (many.new ≡ filled many.old (kind_many (sheet_of f.now)) a.kinds) }
{
    let m = a.kinds;
    let mut all = 0;
    for k in 0..m {
        let kind = records::kind_in(f, k);
        ids[k] = kind.id;
        many[k] = kind.quantity;
        all += kind.quantity;
    }
    all
}

// How many boxes there are before each kind.
pub(crate) fn first_column(
    f: &[u8],
    a: Accepted,
    many: &[u32; domain::MOST_KINDS],
    firsts: &mut [u32; domain::MOST_KINDS],
)
    requires { Taken f.now a × Many (sheet_of f.now) a.kinds many.now }
    ensures { firsts.new ≡ filled firsts.old (kind_first (sheet_of f.now)) a.kinds }
{
    let m = a.kinds;
    let mut sum = 0;
    for k in 0..m {
        firsts[k] = sum;
        sum += many[k];
    }
}

// The first of m ids that is this one, or m.
// Stays: m for none, as an Option is no plainer: it is put into a column of places, and read where a place past the kinds says nothing.
pub(crate) fn place_of(ids: &[u32; domain::MOST_KINDS], m: usize, id: u32) -> usize
    requires { m ≤ most_kinds }
    ensures { result ≡ place_below ids.now id m }
{
    for k in 0..m {
        if ids[k] == id {
            return k;
        }
    }
    m
}

// A kind without a mass adds 0.
fn mass_or_none(k: Kind) -> f64
    ensures { result ≡ mass_of k }
{
    if measures::has_mass(k.massed) {
        return k.mass;
    }
    0.0
}

// The mass with one line more, of this kind where it is known.
fn mass_with(sum: f64, known: bool, k: Kind) -> f64
    ensures { result ≡ mass_with sum known k }
{
    if known {
        return sum + mass_or_none(k);
    }
    sum
}

// The place of the kind of each line and its box; and the mass of all.
pub(crate) fn line_columns(
    f: &[u8],
    a: Accepted,
    ids: &[u32; domain::MOST_KINDS],
    which: &mut [usize],
    boxes: &mut [Extent],
) -> f64
    requires { Taken f.now a × (Ids (sheet_of f.now) a.kinds ids.now
        × ((a.lines ≤ length which.old) × (a.lines ≤ length boxes.old))) }
    ensures { (result ≡ mass_below (sheet_of f.now) a.lines)
        × (which.new ≡ filled which.old (kind_named (sheet_of f.now)) a.lines)
        × (boxes.new ≡ filled boxes.old (box_read f.now) a.lines) }
{
    let m = a.kinds;
    let n = a.lines;
    let mut mass = 0.0;
    for i in 0..n {
        let l = records::line_in(f, a.start, i);
        let w = place_of(ids, m, l.id);
        let k = records::kind_in(f, w);
        mass = mass_with(mass, w < m, k);
        which[i] = w;
        boxes[i] = check_words::box_of(l, k);
    }
    mass
}

// The mark of a copy, of so many: a mark for each box of the order, those of a kind one after the other. A line that does not count has the
// first.
fn slot(first: u32, copy: u32, counts: bool, marks: usize) -> usize
    ensures { result ≡ slot_of marks first copy counts }
{
    let at = u64::from(first) + u64::from(copy);
    if counts & (at < marks as u64) {
        return at as usize;
    }
    0
}

// Which lines repeat a copy, and how many copies of each kind are packed. The marks are lent, a mark for each box and one at least, none of them
// set.
pub(crate) fn mark_columns(
    f: &[u8],
    a: Accepted,
    which: &[usize],
    many: &[u32; domain::MOST_KINDS],
    firsts: &[u32; domain::MOST_KINDS],
    again: &mut [bool],
    packed: &mut [u32; domain::MOST_KINDS],
    seen: &mut [bool],
)
    requires { MarksRead f.now a which.now many.now firsts.now × ((packed.old ≡ replicate most_kinds 0)
        × ((a.lines ≤ length which.now) × ((a.lines ≤ length again.old) × Unmarked (sheet_of f.now) a.kinds seen.old))) }
    ensures { (again.new ≡ filled again.old (repeats (sheet_of f.now)) a.lines)
        × Packed (sheet_of f.now) a.kinds packed.new }
{
    let m = a.kinds;
    let n = a.lines;
    let start = a.start;
    for i in 0..n {
        let l = records::line_in(f, start, i);
        let w = domain::place_within(which[i]);
        let counts = (which[i] < m) & (l.instance < many[w]);
        let at = slot(firsts[w], l.instance, counts, seen.len());
        let was = seen[at];
        again[i] = counts & was;
        seen[at] = was | counts;
        packed[w] += u32::from(counts & !was);
    }
}

// Which of m kinds are short.
pub(crate) fn short_column(
    m: usize,
    many: &[u32; domain::MOST_KINDS],
    packed: &[u32; domain::MOST_KINDS],
    short: &mut [bool; domain::MOST_KINDS],
)
    requires { m ≤ most_kinds }
    ensures { short.new ≡ filled short.old (short_in packed.now many.now) m }
{
    for k in 0..m {
        short[k] = packed[k] < many[k];
    }
}
