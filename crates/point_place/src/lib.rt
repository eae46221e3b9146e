// The place call of the extreme-point placer (extreme_point.rs, `try_place`).

#![tactic(auto)]

ghost use Rattle.std.specs.Prelude.{◌≡◌, ◌+◌, ◌<◌};
ghost use Rattle.domain.specs.Bounds.{most_boxes};
ghost use Rattle.domain.specs.Refusal.{answer_of};
ghost use Rattle.point_state.specs.Stores.{most_points};
ghost use Rattle.point_grow.specs.Grow.{after_box};
ghost use Rattle.point_place.specs.Place.{refusal_of, tried_of, label_of};

use domain::{Refusal, refuse};
use measures::Kind;
use point_state::{ExtremePointSet, Label};

// A place call's answer, and the state after it. The answer is the position of the box where it stands; that no stored point takes
// it is no refusal.
#[derive(Clone, Copy)]
pub struct Tried {
    pub answer: Result<Option<[f64; 3]>, Refusal>,
    pub next: ExtremePointSet,
}

fn refusal_of(live: usize, held: usize, kind: Kind) -> Result<(), Refusal>
    ensures { result ≡ answer_of (refusal_of live held kind) tt }
{
    point_state::within(live, held)?;
    measures::kind_fault(kind, false)?;
    refuse(held == domain::MOST_BOXES, Refusal::Full)
}

fn label_of(kind: Kind, instance: u32) -> Label
    ensures { result ≡ label_of kind instance }
{
    Label {
        id: kind.id,
        instance,
        mass: point_state::mass_of(kind),
    }
}

// Places a box of these lengths at point k.
fn settle(set: ExtremePointSet, k: usize, label: Label, size: [f64; 3]) -> ExtremePointSet
    requires { (k < set.live) × (set.live + 1 < most_points) × (set.held < most_boxes) }
    ensures { result ≡ after_box set k label size }
{
    let container = set.container;
    let held = set.held;
    let mut points = set.points;
    let mut boxes = set.boxes;
    let mut labels = set.labels;
    let at = points[k];
    let live = point_grow::restock(&mut points, &boxes, container, set.live, held, k, size);
    point_grow::put_box(&mut boxes, held, at, size);
    labels[held] = label;
    ExtremePointSet {
        container,
        live,
        held: held + 1,
        points,
        boxes,
        labels,
    }
}

// Tries to place a box of the kind in one orientation. On a refusal, and where no stored point takes it, the state stays.
pub fn try_place(set: ExtremePointSet, kind: Kind, instance: u32, orientation: u32) -> Tried
    ensures { result ≡ tried_of set kind instance orientation }
{
    if let Err(refusal) = refusal_of(set.live, set.held, kind) {
        return Tried {
            answer: Err(refusal),
            next: set,
        };
    }
    let size = measures::dimensions_for_orientation(kind, orientation);
    let Some(k) = point_scan::best(set, size) else {
        return Tried {
            answer: Ok(None),
            next: set,
        };
    };
    let at = set.points[k];
    let q = settle(set, k, label_of(kind, instance), size);
    Tried {
        answer: Ok(Some(at)),
        next: q,
    }
}
