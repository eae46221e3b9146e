// The first orientation of a box in which some stored point takes it, and whether the box is too heavy.
ghost use Rattle.std.specs.Prelude.{◌≡◌, ◌≤◌};
ghost use Rattle.point_step.specs.Pick.{too_heavy, spare, PickIs};

use crate::Pick;
use measures::Kind;
use point_fit::Room;
use point_scan::Walls;

// Whether a box's mass would bring the total over the limit.
pub(crate) fn too_heavy(limit: f64, total: f64, kind: Kind) -> bool
    ensures { result ≡ too_heavy limit total kind }
{
    ((0.0 < limit) & measures::has_mass(kind.massed)) & (limit < total + kind.mass)
}

// Whether the counts are within their bounds, with one box less than there can be, and stores of so many rows take what one box
// more leaves: two points, the box, and its walls.
pub(crate) fn has_spare(points: usize, boxes: usize, walls: usize, live: usize, held: usize) -> bool
    ensures { result ≡ spare points boxes walls live held }
{
    if point_state::over_counts(live, held) {
        return false;
    }
    (held < domain::MOST_BOXES) & ((live + 1 < points) & ((held < boxes) & (held < walls)))
}

// The first of the first n orientations in which some stored point takes the box, and that point.
pub(crate) fn pick(
    points: &[[f64; 3]],
    live: usize,
    walls: &[Walls],
    held: usize,
    room: Room,
    kind: Kind,
    n: usize,
    hints: &mut [u16],
) -> Option<Pick>
    requires { n ≤ 6 }
    ensures { PickIs room walls.now held points.now live kind n hints.old result hints.new }
{
    for o in 0..n as u32 {
        let size = measures::dimensions_for_orientation(kind, o);
        if let Some(index) = point_scan::scan(points, live, walls, held, room, size, hints) {
            return Some(Pick {
                index,
                orientation: o,
            });
        }
    }
    None
}
