// The orientation that the lines of a load file give to each instance of a list (packing_utils.rs, `seed_orientations`).

#![tactic(auto)]

ghost use Rattle.std.specs.Prelude.{◌≡◌, length};
ghost use Rattle.lists.specs.Table.{filled};
ghost use Rattle.file_read.specs.Form.{lines_start, counts_of};
ghost use Rattle.file_read.specs.Reading.{sheet_of};
ghost use Rattle.file_read.specs.Records.{Readable};
ghost use Rattle.layer_seeds.specs.Seeds.{seed_of, seed_at, Ended, Fit};

use domain::{Refusal, refuse};
use file_read::records;
use layer_instances::RECORD;

// What the last of a file's lines of a box says of its orientation, 0 where there is none.
fn seed_of(f: &[u8], start: usize, n: usize, id: u32, instance: u32) -> u32
    requires { Readable f.now × ((start ≡ lines_start f.now) × (n ≡ (counts_of f.now).lines)) }
    ensures { result ≡ seed_of (sheet_of f.now).lines n id instance }
{
    let mut seed = 0;
    for i in 0..n {
        let line = records::line_in(f, start, i);
        if (line.id == id) & (line.instance == instance) {
            seed = line.orientation;
        }
    }
    seed
}

// The orientations of n records, a cell each.
fn put_seeds(f: &[u8], start: usize, lines: usize, records: &[u32], out: &mut [u32], n: usize)
    requires { Fit f.now start lines records.now (length out.old) n }
    ensures { out.new ≡ filled out.old (seed_at (sheet_of f.now) records.now) n }
{
    for j in 0..n {
        let k = records[j * RECORD] as usize;
        let instance = records[j * RECORD + 1];
        let kind = records::kind_in(f, k);
        out[j] = seed_of(f, start, lines, kind.id, instance);
    }
}

// The orientation of each instance of a list, by the lines of a load file; 0 for an instance that they do not contain. How many there are. Refused by 1
// for the shape, 2 for too many records, what else the file gets, 9 for a record of no kind of it, 6 for too few cells.
pub fn seed_orientations(sheet: &[u8], records: &[u32], slots: &mut [u32]) -> Result<usize, Refusal>
    ensures { Ended sheet.now records.now slots.old result slots.new }
{
    let n = records.len() / RECORD;
    if n > domain::MOST_INSTANCES {
        return Err(layer_instances::too_many(sheet));
    }
    let a = file_accept::accept(sheet)?;
    refuse(
        layer_instances::has_stranger(records, a.kinds),
        Refusal::Stranger,
    )?;
    refuse(slots.len() < n, Refusal::Room(n))?;
    put_seeds(sheet, a.start, a.lines, records, slots, n);
    Ok(n)
}
