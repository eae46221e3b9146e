// Replays the samples of load files: the refusal that each gets, and that writing what was read gives the same bytes.

#![tactic(auto)]

use domain::Refusal;
use replay_vectors::{Reader, Tag};
use sheet::Sheet;
use std::fs::File;
use std::os::fd::AsRawFd;

// Bytes lent: more than any load file has.
const ROOM: usize = 60064;

// What stands in lent bytes that no call is to change.
const UNTOUCHED: u8 = 165;

// Whether no byte was changed. It looks at each, so that many are looked at together.
fn untouched(bytes: &[u8]) -> bool {
    let mut same = true;
    for byte in bytes {
        same &= *byte == UNTOUCHED;
    }
    same
}

// Whether the sheet is written as the file with so many bytes lent, and those past it left, or for want of room refused with the length needed.
fn is_written(s: Sheet, file: &[u8], room: usize) -> bool {
    let mut out = [UNTOUCHED; ROOM];
    let (same, held) = match file_write::write_sheet(s, &mut out[..room.min(ROOM)]) {
        Ok(length) => (
            room >= length && length == file.len() && out.starts_with(file),
            length,
        ),
        Err(refusal) => (room < file.len() && refusal == Refusal::Room(file.len()), 0),
    };
    same && untouched(&out[held.min(ROOM)..])
}

fn same_load(mut from: Reader) -> bool {
    let file = from.counted();
    let refused = from.word();
    let same = match file_read::read_sheet(file) {
        Ok(sheet) => {
            let rooms = replay_vectors::rooms(file.len(), ROOM);
            refused == 0 && rooms.iter().all(|room| is_written(sheet, file, *room))
        }
        Err(refusal) => refusal.number() == refused,
    };
    same && from.ends()
}

fn one(tag: Tag, body: &[u8]) -> bool {
    match tag {
        Tag::Load => same_load(Reader::new(body)),
        _ => false,
    }
}

fn main(rt: HostRuntime) {
    replay_vectors::replay(&rt, "load", one);
    match File::open(&rt, "load_long.bin") {
        Ok(file) => replay_vectors::replay_file(&rt, "load_long", file.as_raw_fd(), one),
        Err(_) => replay_vectors::replay_sample(&rt, "load_long", &[], one),
    }
}
