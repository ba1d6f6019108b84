// Arithmetic on cells, [4.1] to [4.5]: the exact result, clamped to 32 bits. Every public function answers every input.
// `add`, `sub` and `mul` make it in 64 bits, by one operation and one clamping: the library's saturating product is made twice.
#![tactic(auto)]

ghost use Rattle.std.specs.Prelude.{◌≡◌, true, ◌≤◌, ◌^◌, pos, nat_abs};
ghost use Rattle.std.specs.Int.Signed.{lt_z};
ghost use Rattle.arithmetic.specs.Arithmetic.{clamp, sum, difference, product, negation, nearest_z, quotient, lesser, greater};

pub fn clamp(z: i64) -> i32
    ensures { result ≡ clamp z }
{
    z.clamp(-2147483648, 2147483647) as i32
}

pub fn add(x: i32, y: i32) -> i32
    ensures { result ≡ sum x y }
{
    clamp(x as i64 + y as i64)
}

pub fn sub(x: i32, y: i32) -> i32
    ensures { result ≡ difference x y }
{
    clamp(x as i64 - y as i64)
}

pub fn mul(x: i32, y: i32) -> i32
    ensures { result ≡ product x y }
{
    clamp(x as i64 * y as i64)
}

pub fn neg(x: i32) -> i32
    ensures { result ≡ negation x }
{
    x.saturating_neg()
}

// [4.3] The number nearest to x by y, of two as near the even one. What is left of x has the sign of x; doubled, it lies beyond y on either
// side where the fraction is more than a half. An odd quotient adds its 1 or -1, and so goes on at an exact half.
fn nearest(x: i64, y: i64) -> i64
    requires { (nat_abs x ≤ 2 ^ 31) × (lt_z (pos 0) y ≡ true) × (nat_abs y ≤ 2 ^ 31) }
    ensures { result ≡ nearest_z x (nat_abs y) }
{
    let quotient = x / y;
    let twice = 2 * (x % y) + quotient % 2;
    if y < twice {
        return quotient + 1;
    }
    if twice < -y {
        return quotient - 1;
    }
    quotient
}

// [4.3] 0 for divisor 0. For a divisor below zero both numbers turn their signs. The one quotient beyond the range is -2147483648 by -1.
pub fn div(x: i32, y: i32) -> i32
    ensures { result ≡ quotient x y }
{
    if y == 0 {
        return 0;
    }
    if y < 0 {
        return clamp(nearest(-(x as i64), -(y as i64)));
    }
    clamp(nearest(x as i64, y as i64))
}

pub fn min(x: i32, y: i32) -> i32
    ensures { result ≡ lesser x y }
{
    x.min(y)
}

pub fn max(x: i32, y: i32) -> i32
    ensures { result ≡ greater x y }
{
    x.max(y)
}
