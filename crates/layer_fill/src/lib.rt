// The layer placer (packing_utils.rs): boxes go left to right in rows, rows front to back in layers, layers bottom to top. Here is
// the fill with its placements, one box at a time.

#![tactic(auto)]

ghost use Rattle.std.specs.Prelude.{◌≡◌, ◌<◌};
ghost use Rattle.domain.specs.Bounds.{most_boxes};
ghost use Rattle.domain.specs.Refusal.{answer_of};
ghost use Rattle.layer_fill.specs.Fill.{place_refusal, no_lines, pushed, answered, opened, placed, placed_best, counted, filled, finished};

use domain::{Refusal, refuse};
use layer_state::{Stand, Step};
use measures::{Container, Kind};
use sheet::Line;

// What is placed so far: the first `count` lines. The others hold no box.
// Stays: a count beside the lines, as a fill that says it holds more than it can is refused by 2 (layer_fill: over_closed).
#[derive(Clone, Copy)]
pub struct LayerFill {
    pub stand: Stand,
    pub count: usize,
    pub lines: [Line; domain::MOST_BOXES],
}

// The placements, the utilization and the count placed.
// Stays: a count beside the lines, as they are the fill's.
#[derive(Clone, Copy)]
pub struct LayerPlacementResult {
    pub placed: usize,
    pub utilization: f64,
    pub lines: [Line; domain::MOST_BOXES],
}

// What a box is refused for: 2 for a state over its bound, then 4 and 3 for the kind, then 7 for a full fill.
fn place_refusal(count: usize, kind: Kind) -> Result<(), Refusal>
    ensures { result ≡ answer_of (place_refusal count kind) tt }
{
    refuse(count > domain::MOST_BOXES, Refusal::Count)?;
    measures::kind_fault(kind, false)?;
    refuse(count == domain::MOST_BOXES, Refusal::Full)
}

// Lines that hold no box.
#[tactic(auto, unfolding(crate::specs::Fill::no_lines))]
fn no_lines() -> [Line; domain::MOST_BOXES]
    ensures { result ≡ no_lines }
{
    let none = sheet::blank_line();
    [none; domain::MOST_BOXES]
}

impl LayerFill {
    // An empty container. One out of its range is refused by 3.
    pub fn new(container: Container) -> Result<LayerFill, Refusal>
        ensures { result ≡ opened container }
    {
        refuse(measures::container_fault(container), Refusal::Measure)?;
        let lines = no_lines();
        Ok(LayerFill {
            stand: Stand::new(container),
            count: 0,
            lines,
        })
    }

    // The fill with the box of a step.
    fn pushed(self, step: Step, id: u32, instance: u32) -> LayerFill
        requires { self.count < most_boxes }
        ensures { result ≡ pushed self step id instance }
    {
        let at = step.at;
        let n = self.count;
        let mut next = self;
        next.lines[n] = Line {
            id,
            instance,
            orientation: step.orientation,
            bin: 0,
            at,
        };
        next.count = n + 1;
        next.stand = step.next;
        next
    }

    // The answer to a box whose step is known: its refusal, or the fill with the box, or none where it got no.
    fn answer(
        self,
        kind: Kind,
        instance: u32,
        step: Option<Step>,
    ) -> Result<Option<LayerFill>, Refusal>
        ensures { result ≡ answered self kind instance step }
    {
        place_refusal(self.count, kind)?;
        let Some(step) = step else {
            return Ok(None);
        };
        Ok(Some(self.pushed(step, kind.id, instance)))
    }

    // Places an instance of a kind turned to an orientation: the fill after it, or none where it doesn't fit there.
    pub fn place(
        self,
        kind: Kind,
        instance: u32,
        orientation: u32,
    ) -> Result<Option<LayerFill>, Refusal>
        ensures { result ≡ placed self kind instance orientation }
    {
        self.answer(kind, instance, self.stand.place(kind, orientation))
    }

    // Places an instance of a kind in its best orientation: the fill after it, or none where it fits in none.
    pub fn place_best(self, kind: Kind, instance: u32) -> Result<Option<LayerFill>, Refusal>
        ensures { result ≡ placed_best self kind instance }
    {
        self.answer(kind, instance, self.stand.place_best(kind))
    }

    // The boxes placed so far.
    pub fn placed(self) -> Result<usize, Refusal>
        ensures { result ≡ counted self }
    {
        refuse(self.count > domain::MOST_BOXES, Refusal::Count)?;
        Ok(self.count)
    }

    // Fraction of the container volume that the placed boxes fill.
    pub fn utilization(self) -> Result<f64, Refusal>
        ensures { result ≡ filled self }
    {
        refuse(self.count > domain::MOST_BOXES, Refusal::Count)?;
        Ok(self.stand.utilization())
    }

    // The placements, the utilization and the count placed.
    pub fn finish(self) -> Result<LayerPlacementResult, Refusal>
        ensures { result ≡ finished self }
    {
        refuse(self.count > domain::MOST_BOXES, Refusal::Count)?;
        let lines = self.lines;
        Ok(LayerPlacementResult {
            placed: self.count,
            utilization: self.stand.utilization(),
            lines,
        })
    }
}
