// The plan of an order, laid by either placer and written as a load file from the order's bytes, with its answer in one word. RULES: Plans, Boundary

#![tactic(auto)]

ghost use Rattle.std.specs.Prelude.{◌≡◌, ◌≤◌, List, ℕ};
ghost use Rattle.domain.specs.Bounds.{most_lines};
ghost use Rattle.point_run.specs.Runs.{ep_packing_of};
ghost use Rattle.layer_plan.specs.Fills.{layer_fill_of};
ghost use Rattle.plan_sheet.specs.Laid.{plan_in, Lays};
ghost use Rattle.plan_sheet.specs.Room.{fitting};
ghost use Rattle.plan_file.specs.Plan.{Planner, Answers};
ghost use Rattle.plan_laws.specs.Fits.{Modest, points_modest, layers_modest};
ghost use Rattle.file_read.specs.Reading.{sheet_of, refusal_of};
ghost use Rattle.plan_file.specs.Laid.{WritesLines, WritesLaid, Sound, points_sound, layers_sound};

use domain::Refusal;
use file_read::records;
use plan_sheet::Told;
use sheet::Line;

// A plan whose lines these are, written as a load file from its order's bytes: its length.
fn write_lines(order: &[u8], told: Told, lines: &[Line], sheet: &mut [u8]) -> Result<usize, Refusal>
    ensures { WritesLines order.now told lines.now sheet.old result sheet.new }
{
    let kinds = records::counts_in(order).kinds;
    let left = plan_unplaced::left_in(order, kinds, lines, told.placed)?;
    file_write::write_plan(
        order,
        kinds,
        lines,
        told.placed,
        &left.ids,
        left.count,
        sheet,
    )
}

// The same with its answer in one word: the length, or 6 and the length needed. The figures are the boxes considered and the
// utilization's bits.
fn write_laid(
    order: &[u8],
    told: Told,
    lines: &[Line],
    sheet: &mut [u8],
    figures: &mut [u64; 2],
) -> u64
    ensures { WritesLaid order.now told lines.now sheet.old
        figures.old result sheet.new figures.new }
{
    match write_lines(order, told, lines, sheet) {
        Ok(length) => {
            figures[0] = told.considered;
            figures[1] = floats::bits_of(told.utilization);
            answer_word::word_of(0, length as u32)
        }
        Err(refusal) => answer_word::word_of(refusal.number(), refusal.needed() as u32),
    }
}

// A placer: how it lays the plan of an order in lent lines.
trait Placer {
    ghost plan_of: { Planner };

    fn lay(order: &[u8], consider: u64, lines: &mut [Line]) -> Result<Told, Refusal>
        ensures { Lays (fitting lines.old (plan_in plan_of order.now consider)) result lines.old lines.new };

    ghost is_modest: { (f : List ℕ) (consider : ℕ) → Modest (plan_in plan_of f consider) };

    ghost is_sound: { (f : List ℕ) (consider : ℕ) → refusal_of f ≡ 0 → Sound (sheet_of f) (plan_of (sheet_of f) consider) };
}

// By extreme points.
struct Points;

impl Placer for Points {
    ghost plan_of = { ep_packing_of };

    ghost is_modest = { points_modest };

    ghost is_sound = { points_sound };

    fn lay(order: &[u8], consider: u64, lines: &mut [Line]) -> Result<Told, Refusal> {
        point_run::lay_points(order, consider, lines)
    }
}

// By layers.
struct Layers;

impl Placer for Layers {
    ghost plan_of = { layer_fill_of };

    ghost is_modest = { layers_modest };

    ghost is_sound = { layers_sound };

    fn lay(order: &[u8], consider: u64, lines: &mut [Line]) -> Result<Told, Refusal> {
        layer_plan::lay_layers(order, consider, lines)
    }
}

// The plan of an order in as many lines as there may be. It stands by itself, so that a smaller order does not touch its stack.
#[inline(never)]
fn plan_long<P: Placer>(
    order: &[u8],
    consider: u64,
    sheet: &mut [u8],
    figures: &mut [u64; 2],
) -> u64
    ensures { Answers P.plan_of order.now consider sheet.old figures.old result sheet.new
        figures.new }
{
    let mut lines = [sheet::blank_line(); domain::MOST_LINES];
    match P::lay(order, consider, &mut lines) {
        Ok(told) => write_laid(order, told, &lines, sheet, figures),
        Err(refusal) => answer_word::word_of(refusal.number(), 0),
    }
}

// The same in fewer lines; an order that they turn out not to hold gets all.
#[inline(never)]
fn plan_short<P: Placer, const LINES: usize>(
    order: &[u8],
    consider: u64,
    sheet: &mut [u8],
    figures: &mut [u64; 2],
) -> u64
    requires { LINES ≤ most_lines }
    ensures { Answers P.plan_of order.now consider sheet.old figures.old result sheet.new
        figures.new }
{
    let mut lines = [sheet::blank_line(); LINES];
    match P::lay(order, consider, &mut lines) {
        Ok(told) => write_laid(order, told, &lines, sheet, figures),
        Err(refusal) => match refusal {
            Refusal::Room(_) => plan_long::<P>(order, consider, sheet, figures),
            _ => answer_word::word_of(refusal.number(), 0),
        },
    }
}

// How many boxes are considered, read off the order before it is tested, so that it is tested once, in lines that hold them. Nothing is
// claimed of it: an order that the lines turn out not to hold gets more.
fn guessed(order: &[u8], consider: u64) -> u64 {
    let kinds = records::counts_in(order).kinds;
    consider.min(plan_boxes::boxes_of(order, kinds))
}

// The plan of an order, in few lines where they do.
fn plan<P: Placer>(order: &[u8], consider: u64, sheet: &mut [u8], figures: &mut [u64; 2]) -> u64
    ensures { Answers P.plan_of order.now consider sheet.old figures.old result sheet.new
        figures.new }
{
    let n = guessed(order, consider);
    if n <= domain::FEW_LINES as u64 {
        return plan_short::<P, { domain::FEW_LINES }>(order, consider, sheet, figures);
    }
    if n <= domain::SOME_LINES as u64 {
        return plan_short::<P, { domain::SOME_LINES }>(order, consider, sheet, figures);
    }
    plan_long::<P>(order, consider, sheet, figures)
}

// The plan of an order by extreme points.
pub fn plan_points(order: &[u8], consider: u64, sheet: &mut [u8], figures: &mut [u64; 2]) -> u64
    ensures { Answers ep_packing_of order.now consider sheet.old figures.old result sheet.new
        figures.new }
{
    plan::<Points>(order, consider, sheet, figures)
}

// The plan of an order by layers.
pub fn plan_layers(order: &[u8], consider: u64, sheet: &mut [u8], figures: &mut [u64; 2]) -> u64
    ensures { Answers layer_fill_of order.now consider sheet.old figures.old result sheet.new
        figures.new }
{
    plan::<Layers>(order, consider, sheet, figures)
}
