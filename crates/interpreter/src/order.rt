// [9.10] The orders of rounds: 0 forward, 1 backward, 2 the even rounds and then the odd ones.
ghost use Rattle.std.specs.Prelude.{◌≡◌, ◌<◌, get_or};
ghost use Rattle.interpreter.specs.Orders.{turns};

// The counter of the turn k of n, from 0. The order is a number, as the entry is given it and its promise says it.
pub fn counter(order: u32, n: u32, k: u32) -> u32
    requires { k < n }
    ensures below { result < n }
    ensures result { result ≡ get_or (turns order n) k 0 }
{
    let evens = n / 2 + n % 2;
    match order {
        0 => k,
        1 => n - 1 - k,
        _ if k < evens => 2 * k,
        _ => 2 * (k - evens) + 1,
    }
}
