// Replays the sample of measures: how many orientations a kind may take, its lengths in one, and volumes.

#![tactic(auto)]

use replay_vectors::{Reader, Tag};
use sheet::Sheet;

// Whether the measures of the sheet are those that come next.
fn is_measured(mut from: Reader, sheet: &Sheet) -> bool {
    let kind = replay_vectors::kind_of(sheet, from.size());
    let orientation = from.word();
    let allowed = from.size() == measures::allowed_orientations(kind.rule);
    let lengths = from.is_three(measures::dimensions_for_orientation(kind, orientation));
    let volume = from.is_float(measures::measure(kind.size));
    let whole = from.is_float(measures::measure(sheet.container.size));
    allowed && lengths && volume && whole && from.ends()
}

fn same_measures(mut from: Reader) -> bool {
    replay_vectors::read_sheet(&mut from).is_ok_and(|sheet| is_measured(from, &sheet))
}

fn one(tag: Tag, body: &[u8]) -> bool {
    match tag {
        Tag::Measures => same_measures(Reader::new(body)),
        _ => false,
    }
}

fn main(rt: HostRuntime) {
    replay_vectors::replay(&rt, "measures", one);
}
