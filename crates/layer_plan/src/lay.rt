// The step of a run for one box: its line goes into lent memory behind the lines before it, and the stand goes on.
ghost use Rattle.std.specs.Prelude.{◌≡◌, ◌+◌, ◌≤◌, length};
ghost use Rattle.layer_state.specs.Stand.{after_step};
ghost use Rattle.layer_plan.specs.Shown.{Puts};

use layer_state::{Stand, Step};
use sheet::Line;

// The line of a box that was placed, at n. No box, no change. How many lines there are then.
#[tactic(auto, unfolding(crate::specs::Shown::put_in))]
pub(crate) fn put_line(
    step: Option<Step>,
    id: u32,
    instance: u32,
    n: usize,
    lines: &mut [Line],
) -> usize
    requires { ((n + 1) ≤ length lines.old) }
    ensures { Puts step id instance n result lines.old lines.new }
{
    let Some(step) = step else {
        return n;
    };
    let at = step.at;
    lines[n] = Line {
        id,
        instance,
        orientation: step.orientation,
        bin: 0,
        at,
    };
    n + 1
}

// The stand after an offer: behind the box, or as it was.
pub(crate) fn after(stand: Stand, step: Option<Step>) -> Stand
    ensures { result ≡ after_step stand step }
{
    step.map_or(stand, |s| s.next)
}
