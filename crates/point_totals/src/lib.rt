// The totals over the placed boxes of a state, from +0 in the order placed. A state whose counts are over the bounds is refused
// by 2.

#![tactic(auto)]

ghost use Rattle.std.specs.Prelude.{◌≡◌, ◌≤◌, length};
ghost use Rattle.point_state.specs.Boxes.{volume_below, mass_below, total_volume, total_mass};
ghost use Rattle.point_state.specs.Counts.{over};
ghost use Rattle.point_totals.specs.Totals.{amounted};

use domain::Refusal;
use point_state::{ExtremePointSet, Label, Spot, mass_with, within};

fn volume_below(boxes: &[Spot], n: usize) -> f64
    requires { n ≤ length boxes.now }
    ensures { result ≡ volume_below boxes.now n }
{
    let mut sum = 0.0;
    for spot in &boxes[..n] {
        sum = sum + measures::measure(spot.dimensions);
    }
    sum
}

fn mass_below(labels: &[Label], n: usize) -> f64
    requires { n ≤ length labels.now }
    ensures { result ≡ mass_below labels.now n }
{
    let mut sum = 0.0;
    for label in &labels[..n] {
        sum = mass_with(sum, label.mass);
    }
    sum
}

// The volume of the placed boxes.
pub fn total_volume(set: ExtremePointSet) -> Result<f64, Refusal>
    ensures { result ≡ amounted (over set) (total_volume set) }
{
    within(set.live, set.held)?;
    Ok(volume_below(&set.boxes, set.held))
}

// The mass of the placed boxes that have one.
pub fn total_mass(set: ExtremePointSet) -> Result<f64, Refusal>
    ensures { result ≡ amounted (over set) (total_mass set) }
{
    within(set.live, set.held)?;
    Ok(mass_below(&set.labels, set.held))
}
