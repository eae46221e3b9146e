// Kinds of boxes, the container, and the lengths of a box in each orientation (geometry.rs, boundary.rs).

#![tactic(auto)]

ghost use Rattle.std.specs.Prelude.{◌≡◌, ◌≤◌, ◌<◌, [], length, get_or};
ghost use Rattle.measures.specs.Orders.{orders, share_of, turned, lengths_in};
ghost use Rattle.measures.specs.Among.{all_turned, lengths_among};
ghost use Rattle.measures.specs.Volume.{volume};
ghost use Rattle.measures.specs.Asked.{has_mass};
ghost use Rattle.domain.specs.Refusal.{answer_of};
ghost use Rattle.measures.specs.Faults.{record_fault, measure_fault, kind_fault, container_fault};

use domain::{Refusal, refuse};

// A kind of box, field by field as a kind record of the load file. `rule` is 0 for any orientation, 1 for upright and 2
// for fixed; `massed` is 1 where the kind has a mass; `filler` is what the record's last two bytes hold.
// Stays: rule, massed and filler are numbers, as refusal 4 is given for values of them that no enum or Option has (measures: record_fault).
#[derive(Clone, Copy)]
pub struct Kind {
    pub id: u32,
    pub quantity: u32,
    pub size: [f64; 3],
    pub mass: f64,
    pub rule: u8,
    pub massed: u8,
    pub filler: u16,
}

// The container block of the load file. A limit of +0 is none.
#[derive(Clone, Copy)]
pub struct Container {
    pub size: [f64; 3],
    pub margin: f64,
    pub spacing: f64,
    pub limit: f64,
}

// The six axis orders.
const ORDERS: [[usize; 3]; 6] = [
    [0, 1, 2],
    [0, 2, 1],
    [1, 0, 2],
    [1, 2, 0],
    [2, 0, 1],
    [2, 1, 0],
];

// How many orientations a rule allows. No accepted kind has a rule past 2; such a one counts as fixed.
pub fn allowed_orientations(rule: u8) -> usize
    ensures { result ≡ length (share_of rule) }
{
    if rule == 0 {
        return 6;
    }
    if rule == 1 {
        return 2;
    }
    1
}

// The row of the rule's orientation i: any has each row, upright rows 0 and 2, fixed row 0. A table of them would be made anew on the stack each
// time, which took as long as all else that a fill does with an orientation.
fn share(rule: u8, i: usize) -> usize
    requires { i < length (share_of rule) }
    ensures { (result ≡ get_or (share_of rule) i 0) × (result < 6) }
{
    if rule == 0 {
        return i;
    }
    2 * i
}

// The axis on place j of row k.
fn axis(k: usize, j: usize) -> usize
    requires { (k < 6) × (j < 3) }
    ensures { (result ≡ get_or (get_or orders k []) j 0) × (result < 3) }
{
    ORDERS[k][j]
}

// The lengths with their axes in the order of row k.
fn turned(size: [f64; 3], k: usize) -> [f64; 3]
    requires { k < 6 }
    ensures { result ≡ turned size (get_or orders k []) }
{
    let w = axis(k, 0);
    let d = axis(k, 1);
    let h = axis(k, 2);
    [size[w], size[d], size[h]]
}

// The lengths of a box in an orientation; unrotated where the index is past the rule's list.
pub fn dimensions_for_orientation(kind: Kind, orientation: u32) -> [f64; 3]
    ensures { result ≡ lengths_in kind orientation }
{
    let size = kind.size;
    let rule = kind.rule;
    let i = orientation as usize;
    if allowed_orientations(rule) <= i {
        return size;
    }
    turned(size, share(rule, i))
}

// The lengths in all six axis orders, row by row.
pub fn all_turned(size: [f64; 3]) -> [[f64; 3]; 6]
    ensures { result ≡ all_turned size }
{
    [
        turned(size, 0),
        turned(size, 1),
        turned(size, 2),
        turned(size, 3),
        turned(size, 4),
        turned(size, 5),
    ]
}

// The lengths in an orientation by those in all six orders: quicker for one who asks for a kind's orientations in turn.
pub fn dimensions_among(all: &[[f64; 3]; 6], size: [f64; 3], rule: u8, orientation: u32) -> [f64; 3]
    ensures { result ≡ lengths_among all.now size rule orientation }
{
    let o = orientation as usize;
    if allowed_orientations(rule) <= o {
        return size;
    }
    all[share(rule, o)]
}

// Whether a box has a mass, by the flag of its kind.
pub fn has_mass(massed: u8) -> bool
    ensures { result ≡ has_mass massed }
{
    !(massed == 0)
}

// The volume of a box of these lengths: width by depth, then by height.
pub fn measure(size: [f64; 3]) -> f64
    ensures { result ≡ volume size }
{
    size[0] * size[1] * size[2]
}

// What refusal 4 is given for.
fn record_fault(k: Kind) -> bool
    ensures { result ≡ record_fault k }
{
    let b = floats::bits_of(k.mass);
    (k.quantity == 0)
        | ((k.rule > 2) | ((k.massed > 1) | ((k.filler != 0) | ((k.massed == 0) & (b != 0)))))
}

// What refusal 3 is given for at a kind.
fn measure_fault(k: Kind) -> bool
    ensures { result ≡ measure_fault k }
{
    let size = k.size;
    !domain::is_length(size[0])
        | (!domain::is_length(size[1])
            | (!domain::is_length(size[2]) | !domain::is_measure(k.mass)))
}

// What a kind is refused for: 4, then 3, then 5 where its id repeats an earlier kind's.
pub fn kind_fault(k: Kind, repeats: bool) -> Result<(), Refusal>
    ensures { result ≡ answer_of (kind_fault k repeats) tt }
{
    refuse(record_fault(k), Refusal::Record)?;
    refuse(measure_fault(k), Refusal::Measure)?;
    refuse(repeats, Refusal::Repeated)
}

// Whether a container gets refusal 3.
pub fn container_fault(c: Container) -> bool
    ensures { result ≡ container_fault c }
{
    let size = c.size;
    let lengths = !domain::is_length(size[0])
        | (!domain::is_length(size[1]) | !domain::is_length(size[2]));
    let rest = !domain::is_measure(c.margin)
        | (!domain::is_measure(c.spacing) | !domain::is_limit(c.limit));
    lengths | rest
}
