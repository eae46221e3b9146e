// A file's sections and records, each read out of the lent bytes where it is used. Every call takes every input: what lies past the
// end of the bytes is blank.
ghost use Rattle.std.specs.Prelude.{◌≡◌};
ghost use Rattle.file_read.specs.Records.{sections_of, counts_in, blank_container, container_in, kind_in, line_in, unplaced_in};

use crate::{layout, read, shape};
use measures::{Container, Kind};
use sheet::{Counts, Line};

// How many records each section of a file holds, and where its lines start and end.
#[derive(Clone, Copy)]
pub struct Sections {
    pub many: Counts,
    pub start: usize,
    pub end: usize,
}

// Reads the trailer, and tells what it says where the file has the right shape.
pub fn sections_of(f: &[u8]) -> Option<Sections>
    ensures { result ≡ sections_of f.now }
{
    let n = f.len();
    if n < layout::TRAILER {
        return None;
    }
    let p = n - layout::TRAILER;
    let k = file_bytes::u32_at(f, p + layout::TRAILER_KINDS) as usize;
    let l = file_bytes::u32_at(f, p + layout::TRAILER_LINES) as usize;
    let u = file_bytes::u32_at(f, p + layout::TRAILER_UNPLACED) as usize;
    let t = file_bytes::u32_at(f, p + layout::TRAILER_START) as usize;
    let form = file_bytes::u16_at(f, p + layout::TRAILER_FORM);
    let a = file_bytes::byte_at(f, p + layout::TRAILER_L);
    let b = file_bytes::byte_at(f, p + layout::TRAILER_S);
    if !shape::is_placed(n, k, l, u, t, form, a, b) {
        return None;
    }
    if !shape::is_whole(l, u, t) {
        return None;
    }
    let many = Counts {
        kinds: (l - layout::BLOCK) / layout::KIND,
        lines: (u - l) / layout::LINE,
        unplaced: (p - u) / layout::ID,
    };
    Some(Sections {
        many,
        start: l,
        end: u,
    })
}

// How many records each section of a file holds; none where it has not the right shape.
pub fn counts_in(f: &[u8]) -> Counts
    ensures { result ≡ counts_in f.now }
{
    match sections_of(f) {
        Some(sections) => sections.many,
        None => Counts {
            kinds: 0,
            lines: 0,
            unplaced: 0,
        },
    }
}

fn blank_container() -> Container
    ensures { result ≡ blank_container }
{
    let size = [0.0, 0.0, 0.0];
    Container {
        size,
        margin: 0.0,
        spacing: 0.0,
        limit: 0.0,
    }
}

pub fn container_in(f: &[u8]) -> Container
    ensures { result ≡ container_in f.now }
{
    if f.len() < layout::BLOCK {
        return blank_container();
    }
    read::container_at(f)
}

// Kind k.
pub fn kind_in(f: &[u8], k: usize) -> Kind
    ensures { result ≡ kind_in f.now k }
{
    if domain::MOST_KINDS <= k {
        return sheet::blank_kind();
    }
    let p = layout::BLOCK + k * layout::KIND;
    if f.len() < p + layout::KIND {
        return sheet::blank_kind();
    }
    read::kind_at(f, p)
}

// Line i of a file whose lines start there.
pub fn line_in(f: &[u8], start: usize, i: usize) -> Line
    ensures { result ≡ line_in f.now start i }
{
    if domain::MOST_LINES <= i {
        return sheet::blank_line();
    }
    if layout::MOST_BYTES < start {
        return sheet::blank_line();
    }
    let p = start + i * layout::LINE;
    if f.len() < p + layout::LINE {
        return sheet::blank_line();
    }
    read::line_at(f, p)
}

// Unplaced id i of a file whose unplaced ids start there.
pub fn unplaced_in(f: &[u8], start: usize, i: usize) -> u32
    ensures { result ≡ unplaced_in f.now start i }
{
    if domain::MOST_UNPLACED <= i {
        return 0;
    }
    if layout::MOST_BYTES < start {
        return 0;
    }
    let p = start + i * layout::ID;
    if f.len() < p + layout::ID {
        return 0;
    }
    file_bytes::u32_at(f, p)
}
