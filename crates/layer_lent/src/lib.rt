// The layer cursor lent mutably: a box that is placed moves it on, and any other answer leaves it as it was.

#![tactic(auto)]

ghost use Rattle.std.specs.Prelude.{◌≡◌};
ghost use Rattle.layer_lent.specs.Asked.{lengths_fault, asked_fault, asked_spot, after_asked};

use domain::{Refusal, refuse};
use layer_cursor::{LayerCursor, LayerSpot};
use layer_state::Stand;
use measures::Container;

// One box for the cursor: the container that it goes into, and its lengths in the orientation that it is to have.
#[derive(Clone, Copy)]
pub struct Asked {
    pub container: Container,
    pub size: [f64; 3],
}

// Whether a length is out of range.
fn lengths_fault(size: [f64; 3]) -> bool
    ensures { result ≡ lengths_fault size }
{
    !domain::is_length(size[0]) | (!domain::is_length(size[1]) | !domain::is_length(size[2]))
}

// What refusal 3 is given for.
fn asked_fault(a: Asked) -> bool
    ensures { result ≡ asked_fault a }
{
    let container = a.container;
    let size = a.size;
    measures::container_fault(container) | lengths_fault(size)
}

// The answer for a cursor by value. Any floats may stand in the cursor: none of them is refused.
fn asked_spot(c: LayerCursor, a: Asked) -> Result<Option<LayerSpot>, Refusal>
    ensures { result ≡ asked_spot c a }
{
    refuse(asked_fault(a), Refusal::Measure)?;
    let container = a.container;
    let size = a.size;
    let stand = Stand::new(container);
    let max = stand.max;
    Ok(layer_cursor::spot(container, max, c, size))
}

// Moves a lent cursor on by one box: its spot, or none where it gets no place. Then, as after a refusal, the cursor is as it was.
pub fn advance(c: &mut LayerCursor, a: Asked) -> Result<Option<LayerSpot>, Refusal>
    ensures { (result ≡ asked_spot c.old a) × (c.new ≡ after_asked c.old (asked_spot c.old a)) }
{
    let Some(spot) = asked_spot(*c, a)? else {
        return Ok(None);
    };
    *c = spot.next;
    Ok(Some(spot))
}
