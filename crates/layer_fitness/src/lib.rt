// The packing fitness (packing_utils.rs, `packing_fitness`).

#![tactic(auto)]

ghost use Rattle.std.specs.Prelude.{◌≡◌};
ghost use Rattle.domain.specs.Refusal.{answer_of};
ghost use Rattle.layer_fitness.specs.Fitness.{fitness_refusal, rated_of};

use domain::{Refusal, refuse};

// What is refused: 2 for a count over its bound, 3 for a fill out of its range.
#[tactic(auto, unfolding(crate::specs::Fitness::fitness_refusal))]
fn fitness_refusal(placed: usize, total: usize, fill: f64) -> Result<(), Refusal>
    ensures { result ≡ answer_of (fitness_refusal placed total fill) tt }
{
    let over = (placed > domain::MOST_BOXES) | (total > domain::MOST_BOXES);
    refuse(over, Refusal::Count)?;
    refuse(!domain::is_measure(fill), Refusal::Measure)
}

// Placed boxes by all boxes a hundredfold, and the fill tenfold: more boxes count before a tighter fill.
pub fn packing_fitness(placed: usize, total: usize, fill: f64) -> Result<f64, Refusal>
    ensures { result ≡ rated_of placed total fill }
{
    fitness_refusal(placed, total, fill)?;
    let ratio = f64::from(placed as u32) / f64::from((total as u32).max(1));
    Ok(ratio * 100.0 + fill * 10.0)
}
