// A lent slice of kind records: the total quantity over all kinds, and the first faulty kind with what is given for it.

#![tactic(auto)]

ghost use Rattle.std.specs.Prelude.{◌≡◌};
ghost use Rattle.sheet_kinds.specs.Survey.{first_fault, survey_of};

use domain::{Refusal, refuse};
use measures::Kind;

// A faulty kind's place, and what is given for it: 4, 3 or 5.
#[derive(Clone, Copy, Debug, PartialEq, Eq)]
pub struct Fault {
    pub place: usize,
    pub refusal: Refusal,
}

// The total quantity, and the first faulty kind, where there is one.
#[derive(Clone, Copy, Debug, PartialEq, Eq)]
pub struct Surveyed {
    pub total: u64,
    pub fault: Option<Fault>,
}

// The first faulty kind of those before this place, or the one that stands there.
fn first_fault(before: Option<Fault>, place: usize, test: Result<(), Refusal>) -> Option<Fault>
    ensures { result ≡ first_fault before place test }
{
    match (before, test) {
        (None, Err(refusal)) => Some(Fault { place, refusal }),
        _ => before,
    }
}

// The survey of a lent slice of kinds. Only more than 64 kinds are refused, by 2. The total cannot wrap: at most 64 numbers of 32 bits.
pub fn survey_kinds(ks: &[Kind]) -> Result<Surveyed, Refusal>
    ensures { result ≡ survey_of ks.now }
{
    refuse(ks.len() > domain::MOST_KINDS, Refusal::Count)?;
    let mut ids = [0u32; domain::MOST_KINDS];
    let mut total = 0;
    let mut fault = None;
    for (k, kind) in ks.iter().enumerate() {
        let test = measures::kind_fault(*kind, sheet::is_among(&ids, k, kind.id));
        fault = first_fault(fault, k, test);
        total += u64::from(kind.quantity);
        ids[k] = kind.id;
    }
    Ok(Surveyed { total, fault })
}
