// The findings of a line for itself, and that it repeats an earlier one: 1 to 6. RULES: Findings: lines
ghost use Rattle.std.specs.Prelude.{◌≡◌, ◌++◌, ◌+◌, ◌*◌, ◌≤◌, ◌<◌};
ghost use Rattle.lists.specs.Below.{all_below};
ghost use Rattle.check_pair.specs.Tolerance.{tolerance_of};
ghost use Rattle.check_words.specs.Wrote.{Wrote, most_words};
ghost use Rattle.check_list.specs.Finding.{name_words, repeat_words, place_words, inside_on, box_inside};
ghost use Rattle.check_list.specs.View.{line_found};
ghost use Rattle.check_list.specs.Held.{view_in, Ran, Wide};

use crate::Rule;
use check_pair::Extent;
use check_words::Finding;
use measures::{Container, Kind};
use sheet::Line;

fn inside_on(c: Container, t: f64, e: Extent, axis: usize) -> bool
    requires { axis < 3 }
    ensures { result ≡ inside_on c t e axis }
{
    (c.margin - t <= e.min[axis]) & (e.max[axis] <= c.size[axis] - c.margin + t)
}

fn inside(c: Container, t: f64, e: Extent) -> bool
    ensures { result ≡ box_inside c t e }
{
    inside_on(c, t, e, 0) & (inside_on(c, t, e, 1) & inside_on(c, t, e, 2))
}

// 1 unknown, 2 out of range, 3 repeated.
fn put_name(
    out: &mut [u64],
    at: usize,
    i: usize,
    l: Line,
    known: bool,
    k: Kind,
    again: bool,
) -> usize
    requires { at + 15 ≤ most_words }
    ensures { Wrote out.old at (name_words i l known k ++ repeat_words i l again) result out.new × (result ≤ at + 15) }
{
    let far = known & !(l.instance < k.quantity);
    let p = Finding::Unknown { line: i, id: l.id }.write_if(out, at, !known);
    let q = Finding::OutOfRange {
        line: i,
        id: l.id,
        instance: l.instance,
        quantity: k.quantity,
    }
    .write_if(out, p, far);
    Finding::Repeated {
        line: i,
        id: l.id,
        instance: l.instance,
    }
    .write_if(out, q, again)
}

// 4 orientation, 5 bin, 6 outside.
fn put_place(
    out: &mut [u64],
    at: usize,
    i: usize,
    l: Line,
    known: bool,
    k: Kind,
    e: Extent,
    c: Container,
    t: f64,
) -> usize
    requires { (at + 15 ≤ most_words) × (t ≡ tolerance_of c.size) }
    ensures { Wrote out.old at (place_words c i l known k e) result out.new × (result ≤ at + 15) }
{
    let index = l.orientation as usize;
    let turned = known & (measures::allowed_orientations(k.rule) <= index);
    let elsewhere = known & (0 < l.bin);
    let outside = known & !inside(c, t, e);
    let p = Finding::Turned {
        line: i,
        id: l.id,
        orientation: l.orientation,
    }
    .write_if(out, at, turned);
    let q = Finding::Elsewhere {
        line: i,
        bin: l.bin,
    }
    .write_if(out, p, elsewhere);
    Finding::Outside { line: i, id: l.id }.write_if(out, q, outside)
}

// What the lines get, one after the other.
pub(crate) fn put_lines(
    out: &mut [u64],
    f: &[u8],
    start: usize,
    which: &[usize],
    again: &[bool],
    boxes: &[Extent],
    rule: Rule,
) -> usize
    requires { Wide rule.lines which.now again.now boxes.now × (rule.slack ≡ tolerance_of rule.case.size) }
    ensures { Ran out.old 0 (6 * rule.lines)
        (all_below (line_found (view_in f.now start again.now rule which.now boxes.now)) rule.lines)
        result out.new }
{
    let m = rule.kinds;
    let n = rule.lines;
    let c = rule.case;
    let mut p = 0;
    for i in 0..n {
        let l = file_read::records::line_in(f, start, i);
        let w = which[i];
        let k = file_read::records::kind_in(f, w);
        let q = put_name(out, p, i, l, w < m, k, again[i]);
        p = put_place(out, q, i, l, w < m, k, boxes[i], c, rule.slack);
    }
    p
}
