// A fill without its placements: what a box offered to it needs to know, and what a box placed in it moves.
ghost use Rattle.std.specs.Prelude.{◌≡◌};
ghost use Rattle.layer_state.specs.Stand.{new_of, mass_allows, committed, turned_of, place_of, fill_of};

use layer_cursor::{LayerCursor, LayerSpot, spot};
use measures::{Container, Kind};

// The container with its far limits, where the cursor is, and the volume and mass of what is placed.
#[derive(Clone, Copy)]
pub struct Stand {
    pub container: Container,
    pub max: [f64; 3],
    pub cursor: LayerCursor,
    pub volume: f64,
    pub mass: f64,
}

// What an offer of a box that fits comes to: its orientation, its position and the stand after it. Where it gets no there is none, and the stand stays.
#[derive(Clone, Copy)]
pub struct Step {
    pub orientation: u32,
    pub at: [f64; 3],
    pub next: Stand,
}

impl Stand {
    // An empty container, its usable space inset by the margin.
    pub fn new(container: Container) -> Stand
        ensures { result ≡ new_of container }
    {
        let size = container.size;
        let m = container.margin;
        Stand {
            container,
            max: [size[0] - m, size[1] - m, size[2] - m],
            cursor: LayerCursor {
                x: m,
                y: m,
                z: m,
                depth: 0.0,
                height: 0.0,
            },
            volume: 0.0,
            mass: 0.0,
        }
    }

    // Whether a kind would still keep the load within the container's mass.
    pub(crate) fn mass_allows(self, kind: Kind) -> bool
        ensures { result ≡ mass_allows self kind }
    {
        let limit = self.container.limit;
        !((0.0 < limit) & measures::has_mass(kind.massed)) | (self.mass + kind.mass <= limit)
    }

    // The stand with a box of this kind on a spot.
    fn committed(self, kind: Kind, spot: LayerSpot) -> Stand
        ensures { result ≡ committed self kind spot }
    {
        let size = kind.size;
        Stand {
            cursor: spot.next,
            volume: self.volume + measures::measure(size),
            mass: self.mass + kind.mass,
            ..self
        }
    }

    // A box of a kind turned to an orientation, with no regard to mass.
    #[tactic(auto, unfolding(crate::specs::Stand::settled))]
    pub(crate) fn place_turned(self, kind: Kind, orientation: u32) -> Option<Step>
        ensures { result ≡ turned_of self kind orientation }
    {
        let size = measures::dimensions_for_orientation(kind, orientation);
        let spot = spot(self.container, self.max, self.cursor, size)?;
        let at = spot.at;
        Some(Step {
            orientation,
            at,
            next: self.committed(kind, spot),
        })
    }

    // A box of a kind, in one orientation.
    #[tactic(auto, unfolding(crate::specs::Stand::place_of))]
    pub fn place(self, kind: Kind, orientation: u32) -> Option<Step>
        ensures { result ≡ place_of self kind orientation }
    {
        if !self.mass_allows(kind) {
            return None;
        }
        self.place_turned(kind, orientation)
    }

    // Fraction of the container volume that the placed boxes fill.
    pub fn utilization(self) -> f64
        ensures { result ≡ fill_of self }
    {
        self.volume / measures::measure(self.container.size)
    }
}
