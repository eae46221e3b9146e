// The extreme-point placer's state (extreme_point.rs, `ExtremePointSet` and `PlacedBox`), by value: a fresh one, its stores, and
// the bounds of its counts.

#![tactic(auto)]

ghost use Rattle.std.specs.Prelude.{◌≡◌};
ghost use Rattle.domain.specs.Refusals.{when};
ghost use Rattle.domain.specs.Refusal.{answer_of};
ghost use Rattle.point_state.specs.Boxes.{mass_of, mass_with};
ghost use Rattle.point_state.specs.Counts.{over_counts};
ghost use Rattle.point_state.specs.Fresh.{fresh_of};
ghost use Rattle.point_state.specs.Stores.{sum3};

use domain::{Refusal, refuse};
use measures::{Container, Kind};

// As many points as so many boxes can leave.
pub const POINTS: usize = 1 + 2 * domain::MOST_BOXES;

// What a placed box is known by: its kind's id, its instance, and its mass where it has one.
#[derive(Clone, Copy)]
pub struct Label {
    pub id: u32,
    pub instance: u32,
    pub mass: Option<f64>,
}

// Where a placed box stands: its position, and its dimensions as it stands, that is turned.
#[derive(Clone, Copy)]
pub struct Spot {
    pub position: [f64; 3],
    pub dimensions: [f64; 3],
}

// A store's boxes before one is placed.
pub const BLANK_SPOT: Spot = Spot {
    position: [0.0, 0.0, 0.0],
    dimensions: [0.0, 0.0, 0.0],
};

// The state: `live` points are stored, and `held` boxes are placed.
// Stays: counts beside the stores, as a state whose counts are over its bounds is refused by 2 (point_state: over_counts).
#[derive(Clone, Copy)]
pub struct ExtremePointSet {
    pub container: Container,
    pub live: usize,
    pub held: usize,
    pub points: [[f64; 3]; POINTS],
    pub boxes: [Spot; domain::MOST_BOXES],
    pub labels: [Label; domain::MOST_BOXES],
}

// A placed box, with its mass where it has one.
#[derive(Clone, Copy)]
pub struct PlacedBox {
    pub id: u32,
    pub instance: u32,
    pub position: [f64; 3],
    pub dimensions: [f64; 3],
    pub mass: Option<f64>,
}

// Whether there are more boxes placed than the stores can hold, or more points stored than so many boxes can leave.
pub fn over_counts(live: usize, held: usize) -> bool
    ensures { result ≡ over_counts live held }
{
    if held > domain::MOST_BOXES {
        return true;
    }
    live > 1 + 2 * held
}

// Refuses counts over those bounds.
pub fn within(live: usize, held: usize) -> Result<(), Refusal>
    ensures { result ≡ answer_of (when (over_counts live held) 2) tt }
{
    refuse(over_counts(live, held), Refusal::Count)
}

// The mass of a box of the kind, where it has one.
pub fn mass_of(kind: Kind) -> Option<f64>
    ensures { result ≡ mass_of kind }
{
    if measures::has_mass(kind.massed) {
        return Some(kind.mass);
    }
    None
}

// The mass with one more box: one without a mass adds nothing.
pub fn mass_with(sum: f64, mass: Option<f64>) -> f64
    ensures { result ≡ mass_with sum mass }
{
    match mass {
        Some(m) => sum + m,
        None => sum,
    }
}

// The sum axis by axis.
pub fn sum3(a: [f64; 3], b: [f64; 3]) -> [f64; 3]
    ensures { result ≡ sum3 a b }
{
    [a[0] + b[0], a[1] + b[1], a[2] + b[2]]
}

// A fresh state: no box, and one point at the margin's corner. A container out of its range is refused.
pub fn new(container: Container) -> Result<ExtremePointSet, Refusal>
    ensures { result ≡ fresh_of container }
{
    refuse(measures::container_fault(container), Refusal::Measure)?;
    let m = container.margin;
    let mut points = [[0.0, 0.0, 0.0]; POINTS];
    points[0] = [m, m, m];
    let blank = Label {
        id: 0,
        instance: 0,
        mass: None,
    };
    Ok(ExtremePointSet {
        container,
        live: 1,
        held: 0,
        points,
        boxes: [BLANK_SPOT; domain::MOST_BOXES],
        labels: [blank; domain::MOST_BOXES],
    })
}
