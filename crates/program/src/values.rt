// Values of variables as the bits of a number: variable x is bit x. Each function says what it does to
// the list of the low n bits, for any n that the values fit.
ghost use Rattle.std.specs.Prelude.{◌<◌};
ghost use Rattle.program.specs.Values.{Puts, Tests};

// The values with variable `var` become `yes`.
#[tactic(auto, using(crate::proofs::Nums::bits_yes, crate::proofs::Nums::yes_lt, crate::proofs::Nums::bits_no, crate::proofs::Nums::no_lt))]
pub fn put_bit(values: u32, var: u32, yes: bool) -> u32
    requires { var < 32 }
    ensures { Puts values var yes result }
{
    if yes {
        values | (1 << var)
    } else {
        values & !(1 << var)
    }
}

// Whether variable `var` is yes.
#[inline]
#[tactic(auto, using(crate::proofs::Nums::bit_is))]
pub fn test_bit(values: u32, var: u32) -> bool
    requires { var < 32 }
    ensures { Tests values var result }
{
    (values >> var) & 1 == 1
}
