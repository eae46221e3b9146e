// One box of the run (extreme_point.rs, the body of `run_ep_packing`'s loop): where it is not too heavy, it goes to the least
// point that takes it in the first of its kind's orientations that some point takes. The stores are lent; nothing is copied.

#![tactic(auto)]

ghost use Rattle.point_step.specs.Step.{stores, StepIs};

mod turns; // turns.rt: the orientation and the point of a box

use crate::turns::{has_spare, pick, too_heavy};
use measures::{Container, Kind};
use point_scan::Walls;
use point_state::Spot;

// The point and the orientation found for a box.
#[derive(Clone, Copy)]
pub struct Pick {
    pub index: usize,
    pub orientation: u32,
}

// A box that stands: in which orientation, and how many points are stored after it.
#[derive(Clone, Copy)]
pub struct Taken {
    pub orientation: u32,
    pub live: usize,
}

// Stays: the stores as four parameters. Some calls here have them lent mutably and others not, so a struct of them would be taken apart at each.
// One box of the kind, beside `held` boxes of so much mass. Where it stands it is box `held` of the boxes and of the walls. With
// counts over the bounds, or stores without room for one box more, it does not stand; where it does not, all but the hints stays.
pub fn step(
    points: &mut [[f64; 3]],
    boxes: &mut [Spot],
    walls: &mut [Walls],
    hints: &mut [u16],
    c: Container,
    live: usize,
    held: usize,
    mass: f64,
    kind: Kind,
) -> Option<Taken>
    ensures { StepIs c live held mass kind (stores points.old boxes.old walls.old hints.old)
        result (stores points.new boxes.new walls.new hints.new) }
{
    if !has_spare(points.len(), boxes.len(), walls.len(), live, held) {
        return None;
    }
    if too_heavy(c.limit, mass, kind) {
        return None;
    }
    let turns = measures::allowed_orientations(kind.rule);
    let room = point_fit::room_of(c);
    let p = pick(points, live, walls, held, room, kind, turns, hints)?;
    let size = measures::dimensions_for_orientation(kind, p.orientation);
    let k = p.index;
    let at = points[k];
    let after = point_grow::restock(points, boxes, c, live, held, k, size);
    point_grow::put_box(boxes, held, at, size);
    point_scan::put_walls(walls, boxes, held, c.spacing);
    Some(Taken {
        orientation: p.orientation,
        live: after,
    })
}
