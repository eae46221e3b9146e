// A finding as the check program prints it: its name and its fields.

#![tactic(auto)]

ghost use Rattle.std.specs.Prelude.{Some};
ghost use Rattle.show_finding.specs.Line.{text_of};

use show::Bits;
use std::fmt;

// The five words of a finding as the check call lends them, which print as its name and the fields that it has.
// Stays: a number and words, for they are the C interface's; the checker's own findings are `check_words::Finding`.
#[derive(Clone, Copy, Debug, PartialEq, Eq, Hash)]
pub struct Finding(pub [u64; 5]);

impl fmt::Display for Finding {
    ghost output = { λ finding. Some (text_of finding.0) };

    fn fmt<W: fmt::Write>(&self, f: &mut fmt::Formatter<W>) -> fmt::Result {
        let [number, a, b, c, d] = self.0;
        match number {
            1 => write!(f, "unknown {a} {b}"),
            2 => write!(f, "out-of-range {a} {b} {c} {d}"),
            3 => write!(f, "repeated {a} {b} {c}"),
            4 => write!(f, "orientation {a} {b} {c}"),
            5 => write!(f, "bin {a} {b}"),
            6 => write!(f, "outside {a} {b}"),
            7 => write!(f, "overlap {a} {b}"),
            8 => write!(f, "too-close {a} {b} {} {}", Bits(c), Bits(d)),
            9 => write!(f, "mass {} {}", Bits(a), Bits(b)),
            10 => write!(f, "missing {a}"),
            // No finding has the number 0.
            0 => write!(f, "wrongly-unplaced {a} {b}"),
            _ => write!(f, "wrongly-unplaced {a}"),
        }
    }
}
