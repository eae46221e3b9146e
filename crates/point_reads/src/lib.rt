// The calls that only read a state's counts and boxes. One whose counts are over the bounds is refused by 2; its floats are not
// tested.

#![tactic(auto)]

ghost use Rattle.std.specs.Prelude.{◌≡◌, eqb};
ghost use Rattle.point_state.specs.Counts.{over};
ghost use Rattle.point_reads.specs.Reads.{told, placed_at};

use domain::Refusal;
use point_state::{ExtremePointSet, PlacedBox, within};

// The number of stored points.
pub fn len(set: ExtremePointSet) -> Result<usize, Refusal>
    ensures { result ≡ told (over set) set.live }
{
    let stored = set.live;
    within(stored, set.held)?;
    Ok(stored)
}

// Whether no point is stored.
pub fn is_empty(set: ExtremePointSet) -> Result<bool, Refusal>
    ensures { result ≡ told (over set) (eqb set.live 0) }
{
    within(set.live, set.held)?;
    Ok(set.live == 0)
}

// The number of placed boxes.
pub fn placed_count(set: ExtremePointSet) -> Result<usize, Refusal>
    ensures { result ≡ told (over set) set.held }
{
    within(set.live, set.held)?;
    Ok(set.held)
}

// Placed box i, in the order placed. Past them there is none, which is no refusal.
pub fn placed_box(set: ExtremePointSet, i: usize) -> Result<Option<PlacedBox>, Refusal>
    ensures { result ≡ placed_at set i }
{
    within(set.live, set.held)?;
    if i >= set.held {
        return Ok(None);
    }
    let label = set.labels[i];
    let spot = set.boxes[i];
    let position = spot.position;
    let dimensions = spot.dimensions;
    Ok(Some(PlacedBox {
        id: label.id,
        instance: label.instance,
        position,
        dimensions,
        mass: label.mass,
    }))
}
