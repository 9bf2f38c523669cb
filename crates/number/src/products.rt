// Products and quotients: the digits are exact as far as rounding asks.
ghost use Rattle.std.specs.Prelude.{◌≡◌, ◌<◌};
ghost use Rattle.std.specs.Int.{from_bool};
ghost use Rattle.rules.specs.Rounding.{single, product_of, quotient_of};
ghost use Rattle.rules.specs.Arithmetic.{word_of};
ghost use Rattle.number.specs.Operands.{value_of};

use crate::operands::Operand;
use crate::rounding::settle;
use rules::Reckoned;

// The product of two numbers' digits, with a minus or none.
pub(crate) fn times(minus: bool, x: Operand, y: Operand) -> Reckoned
    ensures { result ≡ word_of (product_of single (from_bool minus) (value_of x) (value_of y)) }
{
    let p = x.digits * y.digits;
    if p == 0 {
        return Ok(0);
    }
    settle(minus, 2 * p, 7, 10_000_000, x.exponent + y.exponent + 43)
}

// The quotient of two numbers' digits, with a minus or none. Cut below the ninth digit it still rounds as the exact one.
pub(crate) fn over(minus: bool, x: Operand, y: Operand) -> Reckoned
    requires { 0 < y.digits }
    ensures { result ≡ word_of (quotient_of single (from_bool minus) (value_of x) (value_of y)) }
{
    if x.digits == 0 {
        return Ok(0);
    }
    settle(
        minus,
        2 * (x.digits * 100_000_000) / y.digits,
        0,
        1,
        x.exponent + 149 - y.exponent,
    )
}
