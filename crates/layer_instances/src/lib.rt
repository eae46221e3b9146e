// The boxes of an order in a load file, one after the other, and the instance list that they make: a record of three words for each box.

#![tactic(auto)]

ghost use Rattle.std.specs.Prelude.{◌≡◌, ◌∷◌, [], ◌+◌, ◌*◌, ◌≤◌, ◌<◌, length};
ghost use Rattle.std.proofs.lemmas.List.Edits.{sets};
ghost use Rattle.lists.specs.Rows.{wrote};
ghost use Rattle.lists.specs.Below.{any_below};
ghost use Rattle.file_read.specs.Reading.{sheet_of};
ghost use Rattle.layer_instances.specs.Records.{records_in, is_stranger};
ghost use Rattle.plan_boxes.specs.Files.{InFile};
ghost use Rattle.domain.specs.Refusal.{refusal_by};
ghost use Rattle.layer_instances.specs.Instances.{record_words, over_number, Ended};

use domain::{Refusal, refuse};
use file_read::records;
use plan_boxes::Instance;

// Words of an instance record: kind, instance, orientation count.
pub const RECORD: usize = 3;

// Whether a record holds a kind index past the order's m kinds.
pub fn has_stranger(records: &[u32], m: usize) -> bool
    ensures { result ≡ any_below (is_stranger records.now m) (records_in records.now) }
{
    (0..records.len() / RECORD).any(|j| m <= records[j * RECORD] as usize)
}

// What too many records or items are refused for: the shape of the file where that is wrong, which comes first, else their count.
pub fn too_many(f: &[u8]) -> Refusal
    ensures { result ≡ refusal_by (over_number f.now) 0 }
{
    match records::sections_of(f) {
        Some(_) => Refusal::Count,
        None => Refusal::Shape,
    }
}

// One record's words, from `at` on.
fn put_record(out: &mut [u32], at: usize, kind: u32, instance: u32, orientations: u32)
    requires { at + 3 ≤ length out.old }
    ensures { out.new ≡ sets out.old at (kind ∷ instance ∷ orientations ∷ []) }
{
    out[at..at + RECORD].copy_from_slice(&[kind, instance, orientations]);
}

// The records of the first n boxes.
fn put_records(f: &[u8], out: &mut [u32], n: usize)
    requires { InFile f.now n × (n * 3 ≤ length out.old) }
    ensures { out.new ≡ wrote (record_words (sheet_of f.now).kinds) 3 n out.old }
{
    let mut u = Instance {
        kind: 0,
        instance: 0,
    };
    for t in 0..n {
        let k = u.kind;
        let kind = records::kind_in(f, k);
        let orientations = measures::allowed_orientations(kind.rule);
        put_record(
            &mut out[..],
            t * RECORD,
            k as u32,
            u.instance,
            orientations as u32,
        );
        u = plan_boxes::next_box(u, kind.quantity);
    }
}

// Each instance of each kind of the order in a load file as a record: the kind's place, the instance, how many orientations the kind is allowed. How many
// records there are. What the file gets, then 6 where the words lent are fewer than the records need.
pub fn build_instances(order: &[u8], slots: &mut [u32]) -> Result<usize, Refusal>
    ensures { Ended order.now slots.old result slots.new }
{
    let a = file_accept::accept(order)?;
    let n = plan_boxes::boxes_of(order, a.kinds) as usize;
    refuse(slots.len() / RECORD < n, Refusal::Room(n))?;
    put_records(order, slots, n);
    Ok(n)
}
