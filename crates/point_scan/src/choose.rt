// The choice of a point: one scan over the stored points. The hints only save time: each is the box that blocked the point the
// last time.
ghost use Rattle.std.specs.Prelude.{◌≡◌, ◌≤◌, ◌<◌, length};
ghost use Rattle.std.specs.Option.{ForSome};
ghost use Rattle.domain.specs.Bounds.{most_boxes};
ghost use Rattle.point_scan.specs.Choose.{asked};
ghost use Rattle.point_scan.specs.Walls.{TakesIs, ScanIs, ScannedIs, over_stores, best_in};

use crate::Walls;
use crate::around::walls_of;
use crate::fit::fit;
use point_fit::{Room, room_of, sooner};
use point_state::{ExtremePointSet, POINTS};

// Whether the point v is tested: while there is no choice yet, or where it stands before the choice so far.
fn asked(points: &[[f64; 3]], v: [f64; 3], chosen: Option<usize>) -> bool
    requires { ForSome chosen (λ k. k < length points.now) }
    ensures { result ≡ asked points.now v chosen }
{
    match chosen {
        Some(k) => sooner(v, points[k]),
        None => true,
    }
}

// Whether point i takes the place of the choice so far. A point that does not stand before it is not tested.
fn takes(
    points: &[[f64; 3]],
    walls: &[Walls],
    held: usize,
    room: Room,
    size: [f64; 3],
    hints: &mut [u16],
    i: usize,
    chosen: Option<usize>,
) -> bool
    requires { (held ≤ most_boxes) × (held ≤ length walls.now) × (i < length points.now)
        × ForSome chosen (λ k. k < length points.now) × (i < length hints.old) }
    ensures { TakesIs room walls.now held size points.now i chosen hints.old result hints.new }
{
    let v = points[i];
    if !asked(points, v, chosen) {
        return false;
    }
    let f = fit(room, walls, held, hints[i], v, size);
    hints[i] = f.block;
    f.passes
}

// The least of the first `live` points at which a box of these lengths fits, apart from the first `held` boxes.
fn scan_in(
    points: &[[f64; 3]],
    live: usize,
    walls: &[Walls],
    held: usize,
    room: Room,
    size: [f64; 3],
    hints: &mut [u16],
) -> Option<usize>
    requires { (held ≤ most_boxes) × (held ≤ length walls.now) × (live ≤ length points.now) × (live ≤ length hints.old) }
    ensures { ScanIs room walls.now held size points.now live hints.old result hints.new }
{
    let mut chosen = None;
    for i in 0..live {
        if takes(points, walls, held, room, size, hints, i, chosen) {
            chosen = Some(i);
        }
    }
    chosen
}

// Whether the counts are over the bounds, or over stores of so many rows.
fn over_stores(points: usize, walls: usize, hints: usize, live: usize, held: usize) -> bool
    ensures { result ≡ over_stores points walls hints live held }
{
    if point_state::over_counts(live, held) {
        return true;
    }
    (points < live) | ((walls < held) | (hints < live))
}

// Stays: the stores beside their counts as parameters. The hints alone are lent mutably here, so a struct of them would be taken apart at each call.
// The same, and no point where the counts are over the bounds or over the stores.
pub fn scan(
    points: &[[f64; 3]],
    live: usize,
    walls: &[Walls],
    held: usize,
    room: Room,
    size: [f64; 3],
    hints: &mut [u16],
) -> Option<usize>
    ensures { ScannedIs room walls.now held size points.now live hints.old result hints.new }
{
    if over_stores(points.len(), walls.len(), hints.len(), live, held) {
        return None;
    }
    scan_in(points, live, walls, held, room, size, hints)
}

// The least stored point of a state at which a box of these lengths fits; none of a state whose counts are over the bounds.
pub fn best(set: ExtremePointSet, size: [f64; 3]) -> Option<usize>
    ensures { result ≡ best_in set size }
{
    let c = set.container;
    let live = set.live;
    let held = set.held;
    if point_state::over_counts(live, held) {
        return None;
    }
    let walls = walls_of(&set.boxes, held, c.spacing);
    let mut hints = [0u16; POINTS];
    scan_in(
        &set.points,
        live,
        &walls,
        held,
        room_of(c),
        size,
        &mut hints,
    )
}
