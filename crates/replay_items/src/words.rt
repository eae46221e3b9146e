// Lists of numbers of 32 bits in the sample.
ghost use Rattle.std.specs.Prelude.{◌*◌, ◌≤◌};

use replay_vectors::Reader;

// Room for the longest list, three numbers for each record, with some to spare.
pub(crate) const MOST: usize = 4 * domain::MOST_INSTANCES;

// Numbers in an item: the place of its record, and an orientation.
pub(crate) const ITEM: usize = 2;

// How many numbers stand behind a count, so many for each that it counts; 0 where it counts more than a list has room for.
pub(crate) fn numbers_of(count: usize, each: usize) -> usize
    requires { each ≤ 3 }
    ensures { result ≤ 3 * MOST }
{
    if count > MOST {
        return 0;
    }
    count * each
}

// Reads a list into the room lent for it: a count, and so many numbers for each that it counts.
pub(crate) fn read_list<'a>(from: &mut Reader, each: usize, room: &'a mut [u32; MOST]) -> &'a [u32]
    requires { each ≤ 3 }
{
    let n = numbers_of(from.size(), each);
    let mut list = Reader::new(from.part(4 * n));
    for number in room.iter_mut() {
        *number = list.word();
    }
    &room[..n.min(MOST)]
}
