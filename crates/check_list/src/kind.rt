// The findings on the mass and on kinds that are missing: 9 and 10. RULES: Findings: mass, Findings: unplaced
ghost use Rattle.std.specs.Prelude.{◌≡◌, ◌+◌, ◌*◌, ◌≤◌, ◌<◌};
ghost use Rattle.domain.specs.Bounds.{most_kinds};
ghost use Rattle.lists.specs.Below.{all_below};
ghost use Rattle.check_words.specs.Wrote.{Wrote, most_words};
ghost use Rattle.check_list.specs.Finding.{mass_words};
ghost use Rattle.check_list.specs.Held.{lost_in, Ran};

use check_words::Finding;

pub(crate) fn put_mass(out: &mut [u64], at: usize, mass: f64, limit: f64, t: f64) -> usize
    requires { at < most_words }
    ensures { Wrote out.old at (mass_words mass limit t) result out.new × (result ≤ at + 5) }
{
    let over = (0.0 < limit) & (limit + t < mass);
    Finding::Overweight { mass, limit }.write_if(out, at, over)
}

// What the first m kinds get: one that is short and not listed.
pub(crate) fn put_missing(
    out: &mut [u64],
    at: usize,
    ids: &[u32; domain::MOST_KINDS],
    short: &[bool; domain::MOST_KINDS],
    listed: &[bool; domain::MOST_KINDS],
    m: usize,
) -> usize
    requires few { m ≤ most_kinds }
    requires room { at + 5 * most_kinds < most_words }
    ensures { Ran out.old at m (all_below (lost_in ids.now short.now listed.now) m) result out.new }
{
    let mut p = at;
    for k in 0..m {
        let lost = short[k] & !listed[k];
        p = Finding::Missing { id: ids[k] }.write_if(out, p, lost);
    }
    p
}
