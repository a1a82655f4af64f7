ghost use Rattle.std.specs.Prelude.{◌≡◌, ◌≢◌, ◌≤◌, ◌<◌, ◌^◌, ◌*ℤ◌, ◌+ℤ◌, ◌-ℤ◌, pos, IfSome, unsigned_abs};
ghost use Rattle.mw_json.specs.View.{view};
ghost use Rattle.mw_protocol.specs.Operations.{number_in, in_range, floor_quotient, modulo, remainder, shift_by, shifted_left, shifted_right, of_bits, of_numbers, by_number, itself};
ghost use Rattle.mw_storage.specs.Results.{IsResultOf};

use crate::fault::Fault;
use mw_json::Tree;

/// The number that a value is. A numeral that stands by its characters is none.
pub(crate) fn number_of(tree: &Tree) -> Option<i64>
    ensures { result ≡ number_in (view tree.now) }
{
    match tree {
        Tree::Whole(z) if -0x8000_0000_0000_0000 <= *z && *z < 0x8000_0000_0000_0000 => {
            Some(*z as i64)
        }
        _ => None,
    }
}

/// A result, which has to be a number again.
fn ranged(z: i128) -> Result<Tree, Fault>
    ensures { IsResultOf result (in_range z) }
{
    if -0x8000_0000_0000_0000 <= z && z < 0x8000_0000_0000_0000 {
        Ok(Tree::Whole(z))
    } else {
        Err(Fault::OutOfRange)
    }
}

/// A product of two numbers of 64 bits.
fn product(z: i128, n: i128) -> i128
    requires left { unsigned_abs z ≤ 2 ^ 63 }
    requires right { unsigned_abs n ≤ 2 ^ 63 }
    ensures value { result ≡ z *ℤ n }
    ensures small { unsigned_abs result ≤ 2 ^ 126 }
{
    z * n
}

/// The greatest whole number that is no greater than the quotient.
fn quotient(z: i128, divisor: i128) -> i128
    requires dividend { unsigned_abs z ≤ 2 ^ 63 }
    requires divisor { unsigned_abs divisor ≤ 2 ^ 63 }
    requires nonzero { divisor ≢ pos 0 }
    ensures value { result ≡ floor_quotient z divisor }
    ensures small { unsigned_abs result ≤ 2 ^ 63 }
{
    if divisor > 0 {
        z.div_euclid(divisor)
    } else {
        (-z).div_euclid(-divisor)
    }
}

fn less(z: i128, taken: i128) -> i128
    requires from { unsigned_abs z ≤ 2 ^ 63 }
    requires taken { unsigned_abs taken ≤ 2 ^ 126 }
    ensures { result ≡ z -ℤ taken }
{
    z - taken
}

/// What is left of a number once the divisor is taken from it as often as the quotient says.
fn modulo(z: i64, divisor: i64) -> i128
    requires { divisor ≢ pos 0 }
    ensures { result ≡ modulo z divisor }
{
    let (z, divisor) = (i128::from(z), i128::from(divisor));
    less(z, product(divisor, quotient(z, divisor)))
}

fn remainder(z: i64, divisor: i64) -> Result<Tree, Fault>
    ensures { IsResultOf result (remainder z divisor) }
{
    if divisor == 0 {
        return Err(Fault::Bad);
    }
    ranged(modulo(z, divisor))
}

fn sum(z: i64, n: i64) -> i128
    ensures { result ≡ z +ℤ n }
{
    i128::from(z) + i128::from(n)
}

/// 2 to a power below 64.
fn power(exponent: u32) -> i128
    requires { exponent < 64 }
    ensures value { result ≡ pos (2 ^ exponent) }
    ensures small { unsigned_abs result ≤ 2 ^ 63 }
    ensures nonzero { result ≢ pos 0 }
{
    i128::from(1u64 << exponent)
}

/// By how many bits a number shifts.
fn shift(n: i64) -> Option<u32>
    ensures value { result ≡ shift_by n }
    ensures range { IfSome result (λ k. k < 64) }
{
    if 0 <= n && n < 64 {
        Some(n as u32)
    } else {
        None
    }
}

fn shifted_left(z: i64, n: i64) -> Result<Tree, Fault>
    ensures { IsResultOf result (shifted_left z (shift_by n)) }
{
    match shift(n) {
        Some(exponent) => ranged(product(i128::from(z), power(exponent))),
        None => Err(Fault::Bad),
    }
}

fn shifted_right(z: i64, n: i64) -> Result<Tree, Fault>
    ensures { IsResultOf result (shifted_right z (shift_by n)) }
{
    match shift(n) {
        Some(exponent) => ranged(quotient(i128::from(z), power(exponent))),
        None => Err(Fault::Bad),
    }
}

/// Two numbers as 64 bits in two's complement.
#[tactic(auto, unfolding(mw_protocol::specs::Operations::of_bits))]
fn of_bits(name: &str, z: i64, n: i64) -> Result<Tree, Fault>
    ensures { IsResultOf result (of_bits name.now z n) }
{
    match name {
        "and" => ranged(i128::from(z & n)),
        "or" => ranged(i128::from(z | n)),
        "xor" => ranged(i128::from(z ^ n)),
        "left_shift" => shifted_left(z, n),
        "right_shift" => shifted_right(z, n),
        _ => Err(Fault::Bad),
    }
}

#[tactic(auto, unfolding(mw_protocol::specs::Operations::of_numbers))]
fn of_numbers(name: &str, z: i64, n: i64) -> Result<Tree, Fault>
    ensures { IsResultOf result (of_numbers name.now z n) }
{
    match name {
        "add" => ranged(sum(z, n)),
        "mul" => ranged(product(i128::from(z), i128::from(n))),
        "max" => ranged(i128::from(z.max(n))),
        "min" => ranged(i128::from(z.min(n))),
        "mod" => remainder(z, n),
        _ => of_bits(name, z, n),
    }
}

/// An operation that only numbers have.
pub(crate) fn by_number(name: &str, value: Tree, operand: &Tree) -> Result<Tree, Fault>
    ensures { IsResultOf result (by_number name.now (view value) (view operand.now)) }
{
    match (number_of(&value), number_of(operand)) {
        (Some(z), Some(n)) => of_numbers(name, z, n),
        _ => Err(Fault::Bad),
    }
}

/// A number, which is whole.
pub(crate) fn itself(value: Tree) -> Result<Tree, Fault>
    ensures { IsResultOf result (itself (view value)) }
{
    if number_of(&value).is_some() {
        Ok(value)
    } else {
        Err(Fault::Bad)
    }
}
