// The runs of the placers over the order in a load file, handed out into lent words, six to a line. A run lays its plan in lines of its own.

#![tactic(auto)]

ghost use Rattle.std.specs.Fn.{FnOnceReturnsAtMut};
ghost use Rattle.plan_sheet.specs.Laid.{plan_in};
ghost use Rattle.point_run.specs.Runs.{ep_packing_of};
ghost use Rattle.layer_plan.specs.Fills.{layer_fill_of};
ghost use Rattle.layer_plan.specs.Items.{items_in};
ghost use Rattle.plan_run.specs.Packs.{Packs, HandsOut};

use domain::Refusal;
use file_read::records;
use plan_sheet::{Packed, Told};
use sheet::Line;

// A run: what is laid in as many lines as there may be is handed out. Its unplaced list is made from them and the order's bytes.
fn run<F: FnOnce(&mut [Line]) -> Result<Told, Refusal>>(
    order: &[u8],
    slots: &mut [u64],
    lay: F,
) -> Result<Packed, Refusal>
    requires { F.IsAlwaysCallable lay }
    ensures { HandsOut (FnOnceReturnsAtMut F.FnOnce lay) order.now slots.old result slots.new }
{
    let mut lines = [sheet::blank_line(); domain::MOST_LINES];
    let told = lay(&mut lines)?;
    let kinds = records::counts_in(order).kinds;
    let left = plan_unplaced::left_in(order, kinds, &lines, told.placed)?;
    plan_sheet::hand_lines(told, left, &lines, slots)
}

// The run of the extreme-point placer over the order in a load file: its boxes by falling volume, each at the least point that takes it, as far as
// `consider` goes.
pub fn run_ep_packing(order: &[u8], consider: u64, slots: &mut [u64]) -> Result<Packed, Refusal>
    ensures { Packs (plan_in ep_packing_of order.now consider) slots.old result slots.new }
{
    run(order, slots, |lines| {
        point_run::lay_points(order, consider, lines)
    })
}

// The fill by layers of the order in a load file: its boxes in turn, each in its best orientation, as far as `consider` goes.
pub fn layer_fill_in_order(
    order: &[u8],
    consider: u64,
    slots: &mut [u64],
) -> Result<Packed, Refusal>
    ensures { Packs (plan_in layer_fill_of order.now consider) slots.old result slots.new }
{
    run(order, slots, |lines| {
        layer_plan::lay_layers(order, consider, lines)
    })
}

// Items in the given order and orientations, each an instance of a given list, as far as `consider` goes.
pub fn layer_place_items(
    order: &[u8],
    records: &[u32],
    items: &[u32],
    consider: u64,
    slots: &mut [u64],
) -> Result<Packed, Refusal>
    ensures { Packs (items_in order.now records.now items.now consider) slots.old result slots.new }
{
    run(order, slots, |lines| {
        layer_plan::lay_items(order, records, items, consider, lines)
    })
}
