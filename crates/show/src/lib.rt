// A float's bits as the programs print them: sixteen upper-case hexadecimal digits.

#![tactic(auto)]

ghost use Rattle.std.specs.Prelude.{Some};
ghost use Rattle.show.specs.Hex.{hex_of};

use std::fmt;

// A float's bits, which print as their digits, the highest first.
#[derive(Clone, Copy, Debug, PartialEq, Eq, Hash)]
pub struct Bits(pub u64);

impl fmt::Display for Bits {
    ghost output = { λ b. Some (hex_of b.0) };

    fn fmt<W: fmt::Write>(&self, f: &mut fmt::Formatter<W>) -> fmt::Result {
        let bits = self.0;
        write!(f, "{bits:016X}")
    }
}
