// The boxes of an order in listing order: each kind's instances in turn, then the next kind's. Both placers begin with it
// (packing_utils.rs, `build_instances`; extreme_point.rs, the loops that open `run_ep_packing`).

#![tactic(auto)]

ghost use Rattle.std.specs.Prelude.{◌≡◌, ◌<◌};
ghost use Rattle.plan_boxes.specs.Files.{next_box, boxes_from};

use file_read::records;

// One box: its kind's place in the order, and which one of that kind it is.
#[derive(Clone, Copy)]
pub struct Instance {
    pub kind: usize,
    pub instance: u32,
}

// The box behind this one, of a kind that has so many: its next instance, or the first of the next kind. A kind that no order has is left as it is.
pub fn next_box(u: Instance, quantity: u32) -> Instance
    ensures { result ≡ next_box quantity u }
{
    if u.kind >= domain::MOST_KINDS {
        return u;
    }
    if u64::from(u.instance) + 1 < u64::from(quantity) {
        return Instance {
            kind: u.kind,
            instance: u.instance + 1,
        };
    }
    Instance {
        kind: u.kind + 1,
        instance: 0,
    }
}

// The boxes of the first m kinds of a file, and 0 for more kinds than there can be. It cannot wrap: at most 64 numbers of 32 bits.
pub fn boxes_of(f: &[u8], m: usize) -> u64
    ensures { result ≡ boxes_from f.now m }
{
    if m > domain::MOST_KINDS {
        return 0;
    }
    let mut t = 0;
    for k in 0..m {
        let kind = records::kind_in(f, k);
        t += u64::from(kind.quantity);
    }
    t
}
