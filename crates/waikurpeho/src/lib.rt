// The boundary for other languages: byte slices and numbers only. Each answer is one word: the refusal number times 2^32
// plus a count.

#![tactic(auto)]

ghost use Rattle.std.specs.Prelude.{◌≡◌};
ghost use Rattle.point_run.specs.Runs.{ep_packing_of};
ghost use Rattle.layer_plan.specs.Fills.{layer_fill_of};
ghost use Rattle.plan_file.specs.Plan.{Answers};
ghost use Rattle.waikurpeho.specs.Check.{check_answer, check_cells};
ghost use Rattle.waikurpeho.specs.Fill.{fill_answer, fill_after};

// The findings on a load file, five words to a slot: how many there are, or 6 and the slots needed.
pub fn wk_check(sheet: &[u8], findings: &mut [u64]) -> u64
    ensures { (result ≡ check_answer sheet.now findings.old) ×
        (findings.new ≡ check_cells sheet.now findings.old) }
{
    match check_packing::check_packing(sheet, findings) {
        Ok(count) => answer_word::word_of(0, count as u32),
        Err(refusal) => answer_word::word_of(refusal.number(), refusal.needed() as u32),
    }
}

// The plan of an order by extreme points: the length of the planned sheet's file, or 6 and the length needed. The figures are the boxes
// considered and the utilization's bits.
pub fn wk_plan_points(order: &[u8], consider: u64, sheet: &mut [u8], figures: &mut [u64; 2]) -> u64
    ensures { Answers ep_packing_of order.now consider sheet.old figures.old result sheet.new
        figures.new }
{
    plan_file::plan_points(order, consider, sheet, figures)
}

// The plan of an order by layers, told as the other is.
pub fn wk_plan_layers(order: &[u8], consider: u64, sheet: &mut [u8], figures: &mut [u64; 2]) -> u64
    ensures { Answers layer_fill_of order.now consider sheet.old figures.old result sheet.new
        figures.new }
{
    plan_file::plan_layers(order, consider, sheet, figures)
}

// The fill per thousand of a load file, stored in `fill_thousand`.
pub fn wk_fill(sheet: &[u8], fill: &mut u64) -> u64
    ensures { (result ≡ fill_answer sheet.now) × (fill.new ≡ fill_after sheet.now fill.old) }
{
    match fill_thousand::fill_of(sheet) {
        Ok(thousandths) => {
            *fill = thousandths;
            answer_word::word_of(0, 0)
        }
        Err(refusal) => answer_word::word_of(refusal.number(), 0),
    }
}
