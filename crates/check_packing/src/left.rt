// The unplaced ids: which kinds they list, and those that are wrongly listed, finding 11. A mark for each kind tells whether its id was
// listed before. RULES: Findings: unplaced
ghost use Rattle.std.specs.Prelude.{◌≡◌, false, ◌+◌, ◌*◌, ◌≤◌, replicate};
ghost use Rattle.domain.specs.Bounds.{most_kinds, most_unplaced};
ghost use Rattle.lists.specs.Below.{all_below};
ghost use Rattle.file_read.specs.Reading.{sheet_of};
ghost use Rattle.file_accept.specs.Accept.{Taken};
ghost use Rattle.check_words.specs.Wrote.{most_words};
ghost use Rattle.check_list.specs.Held.{Ran};
ghost use Rattle.check_packing.specs.Findings.{wrongly_listed};
ghost use Rattle.check_packing.specs.Columns.{Ids, Short, Listed};

use crate::columns;
use check_words::Finding;
use file_accept::Accepted;
use file_read::records;

// Which kinds are listed.
pub(crate) fn listed_column(
    f: &[u8],
    a: Accepted,
    ids: &[u32; domain::MOST_KINDS],
    listed: &mut [bool; domain::MOST_KINDS],
)
    requires { Taken f.now a × (Ids (sheet_of f.now) a.kinds ids.now × (listed.old ≡ replicate most_kinds false)) }
    ensures { Listed (sheet_of f.now) a.unplaced listed.new }
{
    let m = a.kinds;
    let u = a.unplaced;
    for i in 0..u {
        let w = columns::place_of(ids, m, records::unplaced_in(f, a.end, i));
        let k = domain::place_within(w);
        listed[k] = listed[k] | (w < m);
    }
}

// What the unplaced ids get: an id that is no kind's, a complete kind's, or listed before.
pub(crate) fn put_wrong(
    f: &[u8],
    a: Accepted,
    ids: &[u32; domain::MOST_KINDS],
    short: &[bool; domain::MOST_KINDS],
    out: &mut [u64],
    at: usize,
) -> usize
    requires { Taken f.now a × (Ids (sheet_of f.now) a.kinds ids.now × (Short (sheet_of f.now) a.kinds short.now
        × (at + 5 * most_unplaced ≤ most_words))) }
    ensures { Ran out.old at a.unplaced (all_below (wrongly_listed (sheet_of f.now)) a.unplaced) result out.new }
{
    let m = a.kinds;
    let u = a.unplaced;
    let mut seen = [false; domain::MOST_KINDS];
    let mut p = at;
    for i in 0..u {
        let id = records::unplaced_in(f, a.end, i);
        let w = columns::place_of(ids, m, id);
        let k = domain::place_within(w);
        let wrong = !(w < m) | (!short[k] | seen[k]);
        p = Finding::WronglyListed { id }.write_if(out, p, wrong);
        seen[k] = seen[k] | (w < m);
    }
    p
}
