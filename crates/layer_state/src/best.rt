// The best of the orientations that a kind's rule allows.
ghost use Rattle.std.specs.Prelude.{◌≡◌};
ghost use Rattle.layer_state.specs.Best.{score_of, better, best_for, place_best_of};

use crate::stand::{Stand, Step};
use layer_cursor::{LayerSpot, spot};
use measures::Kind;

// The best orientation among those tried so far in which a box fits, with its score. Theorems on the choice name it.
#[derive(Clone, Copy)]
pub struct Best {
    pub orientation: u32,
    pub score: f64,
}

// Low, then near the front, then to the left, then flat: the less the better.
fn score(at: [f64; 3], height: f64) -> f64
    ensures { result ≡ score_of at height }
{
    at[2] * 1000000.0 + at[1] * 1000.0 + at[0] + height * 0.1
}

// What is the best after one more orientation: the new one only where it fits, and its score is less or the first.
#[tactic(auto, unfolding(crate::specs::Best::better))]
fn better(
    best: Option<Best>,
    spot: Option<LayerSpot>,
    height: f64,
    orientation: u32,
) -> Option<Best>
    ensures { result ≡ better best spot height orientation }
{
    let Some(spot) = spot else {
        return best;
    };
    let score = score(spot.at, height);
    if best.is_none_or(|b| score < b.score) {
        return Some(Best { orientation, score });
    }
    best
}

impl Stand {
    // The best of all orientations that the kind's rule allows, if a box fits in one.
    #[tactic(auto, unfolding(crate::specs::Best::best_of))]
    fn best_for(self, kind: Kind) -> Option<Best>
        ensures { result ≡ best_for self kind }
    {
        let whole = kind.size;
        let all = measures::all_turned(whole);
        let n = measures::allowed_orientations(kind.rule) as u32;
        let mut best = None;
        for i in 0..n {
            let size = measures::dimensions_among(&all, whole, kind.rule, i);
            let spot = spot(self.container, self.max, self.cursor, size);
            best = better(best, spot, size[2], i);
        }
        best
    }

    // A box of a kind, in whichever allowed orientation keeps it lowest, then nearest the front, then nearest the left,
    // then flattest (the first such orientation on a tie).
    #[tactic(auto, unfolding(crate::specs::Best::place_best_of))]
    pub fn place_best(self, kind: Kind) -> Option<Step>
        ensures { result ≡ place_best_of self kind }
    {
        if !self.mass_allows(kind) {
            return None;
        }
        let best = self.best_for(kind)?;
        self.place_turned(kind, best.orientation)
    }
}
