// Whether two placed boxes overlap (extreme_point.rs, `PlacedBox::overlaps`).

#![tactic(auto)]

ghost use Rattle.std.specs.Prelude.{◌≡◌};
ghost use Rattle.point_overlap.specs.Overlap.{max_corner, box_fault, overlapping, overlap_of};

use domain::{Refusal, SLACK, refuse};
use point_state::{PlacedBox, sum3};

// The far corner of a placed box.
pub fn max_corner(b: PlacedBox) -> [f64; 3]
    ensures { result ≡ max_corner b }
{
    let position = b.position;
    let dimensions = b.dimensions;
    sum3(position, dimensions)
}

// Whether a length or the position of a box is out of its range.
fn box_fault(b: PlacedBox) -> bool
    ensures { result ≡ box_fault b }
{
    let p = b.position;
    let d = b.dimensions;
    !((domain::is_length(d[0]) & (domain::is_length(d[1]) & domain::is_length(d[2])))
        & (domain::is_position(p[0]) & (domain::is_position(p[1]) & domain::is_position(p[2]))))
}

fn overlapping(a: PlacedBox, b: PlacedBox) -> bool
    ensures { result ≡ overlapping a b }
{
    let p = a.position;
    let q = b.position;
    let pe = max_corner(a);
    let qe = max_corner(b);
    !(((p[0] >= qe[0] - SLACK) | (q[0] >= pe[0] - SLACK))
        | (((p[1] >= qe[1] - SLACK) | (q[1] >= pe[1] - SLACK))
            | ((p[2] >= qe[2] - SLACK) | (q[2] >= pe[2] - SLACK))))
}

// Whether two boxes overlap by more than the slack on every axis. A box whose lengths or position are out of range is refused
// by 3.
pub fn overlaps(a: PlacedBox, b: PlacedBox) -> Result<bool, Refusal>
    ensures { result ≡ overlap_of a b }
{
    refuse(box_fault(a) | box_fault(b), Refusal::Measure)?;
    Ok(overlapping(a, b))
}
