// What the programs share at their edges: how the input is read, and how a failure is told. No contract can say what standard input
// holds, or what is written.

#![tactic(auto)]

ghost use Rattle.std.specs.Prelude.{◌≡◌, ◌/◌, ◌%◌};
ghost use Rattle.answer_word.specs.Answer.{unit};

use std::io::Read;
use std::{fmt, io};

// One byte more than a load file may have, so that a longer input is seen to be longer and not cut.
pub const BYTES: usize = file_read::layout::MOST_BYTES + 1;

// Why a program has no answer; it prints as the one line on the error stream that says so.
#[derive(Clone, Copy, Debug, PartialEq, Eq, Hash)]
pub enum Failure {
    Unread,
    Unwritten,
}

impl fmt::Display for Failure {
    fn fmt<W: fmt::Write>(&self, f: &mut fmt::Formatter<W>) -> fmt::Result {
        f.write_str(match self {
            Failure::Unread => "failed: the input cannot be read",
            Failure::Unwritten => "failed: the output cannot be written",
        })
    }
}

// The input to its end. One that fills all the bytes is too long to be a load file, and is not read on.
pub fn read_input<'a>(
    input: &mut impl Read,
    bytes: &'a mut [u8; BYTES],
) -> Result<&'a [u8], Failure> {
    let mut n = 0;
    // Stays: it counts no turns, but the bytes that each read gave.
    while n < BYTES {
        let more = input.read(&mut bytes[n..]).map_err(|_| Failure::Unread)?;
        if more == 0 {
            break;
        }
        n += more;
    }
    Ok(&bytes[..n])
}

// Whether the input broke off, of which not all bytes are filled: once it is read to its end, a further read finds nothing and does not fail.
fn broken_off(input: &mut impl Read) -> bool {
    let mut more = [0; 1];
    match input.read(&mut more) {
        Ok(found) => found != 0,
        Err(_) => true,
    }
}

// An input whose end is looked at twice, as the programs look at theirs: it is there when a read finds nothing, or fails, and a further one finds
// nothing. Where that finds more, or fails too, the input broke off.
#[derive(Drop)]
pub struct Whole<'a, R> {
    pub input: &'a mut R,
}

impl<R: Read> Read for Whole<'_, R> {
    fn read(&mut self, buf: &mut [u8]) -> io::Result<usize> {
        if buf.is_empty() {
            return self.input.read(buf);
        }
        match self.input.read(buf) {
            Ok(0) | Err(_) if broken_off(self.input) => {
                Err(io::Error::from(io::ErrorKind::UnexpectedEof))
            }
            Ok(0) | Err(_) => Ok(0),
            found => found,
        }
    }
}

// The refusal number of an answer, 0 for none.
// Stays: a number, for the answer is the C interface's.
pub fn refusal_of(answer: u64) -> u64
    ensures { result ≡ answer / unit }
{
    answer / answer_word::UNIT
}

// The count of an answer.
pub fn count_of(answer: u64) -> usize
    ensures { result ≡ answer % unit }
{
    (answer % answer_word::UNIT) as usize
}

#[cfg(test)]
mod tests {
    use super::*;

    // What one read gives.
    #[derive(Clone, Copy)]
    enum Turn {
        Byte(u8),
        Nothing,
        Failure,
    }

    // An input that gives these, one after the other, and then nothing.
    #[derive(Drop)]
    struct Turns<'a> {
        left: &'a [Turn],
    }

    impl Read for Turns<'_> {
        fn read(&mut self, buf: &mut [u8]) -> io::Result<usize> {
            let Some((turn, left)) = self.left.split_first() else {
                return Ok(0);
            };
            self.left = left;
            match (turn, buf.first_mut()) {
                (Turn::Byte(byte), Some(cell)) => {
                    *cell = *byte;
                    Ok(1)
                }
                (Turn::Failure, _) => Err(io::Error::from(io::ErrorKind::ConnectionReset)),
                _ => Ok(0),
            }
        }
    }

    // In each row the turns after a first byte, and what is read of them, by itself and as a whole.
    #[test]
    fn the_end_is_looked_at_once_or_twice(rt: HostRuntime) {
        let mut bytes = [0; BYTES];
        let [one, two] = [[7].as_slice(), [7, 8].as_slice()];
        let unread = Err(Failure::Unread);
        for (second, third, by_itself, whole) in [
            (Turn::Byte(8), Turn::Nothing, Ok(two), Ok(two)),
            (Turn::Byte(8), Turn::Failure, unread, Ok(two)),
            (Turn::Nothing, Turn::Byte(8), Ok(one), unread),
            (Turn::Nothing, Turn::Failure, Ok(one), unread),
            (Turn::Failure, Turn::Byte(8), unread, unread),
            (Turn::Failure, Turn::Nothing, unread, Ok(one)),
            (Turn::Failure, Turn::Failure, unread, unread),
        ] {
            let turns = [Turn::Byte(7), second, third];
            let mut input = Turns { left: &turns };
            assert_eq!(rt; read_input(&mut input, &mut bytes), by_itself);
            let mut input = Turns { left: &turns };
            let mut input = Whole { input: &mut input };
            assert_eq!(rt; read_input(&mut input, &mut bytes), whole);
        }
    }

    #[test]
    fn no_more_is_read_than_fills_the_bytes(rt: HostRuntime) {
        let long = [7; BYTES + 1];
        let mut bytes = [0; BYTES];
        let mut input = long.as_slice();
        assert_eq!(rt; read_input(&mut input, &mut bytes), Ok(&long[..BYTES]));
        assert_eq!(rt; input, &long[BYTES..]);
        let mut input = long.as_slice();
        let mut whole = Whole { input: &mut input };
        assert_eq!(rt; read_input(&mut whole, &mut bytes), Ok(&long[..BYTES]));
        assert_eq!(rt; input, &long[BYTES..]);
    }
}
