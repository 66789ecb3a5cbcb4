//! The stride between the offsets of a made graph.
ghost use Rattle.std.specs.Prelude.{◌≤◌, ◌<◌, ◌+◌, ◌^◌};
ghost use Rattle.std.specs.Int.{IsGcd};
ghost use Rattle.graph_text.specs.generate.Making.{IsStride};

/// The least number that is at least 1, at least 0.618 times `half`, rounded down, and has no
/// common divisor with it.
pub(crate) fn stride_of(half: u64) -> u64
    requires { half < 2 ^ 32 }
    ensures stride { IsStride half result }
    ensures small { result ≤ half + 1 }
{
    let low = (half * 618 / 1000).max(1);
    for stride in low..half + 2 {
        if greatest_common_divisor(stride, half) == 1 {
            return stride;
        }
    }
    unreachable!()
}

/// By Euclid's steps.
fn greatest_common_divisor(a: u64, b: u64) -> u64
    ensures { IsGcd a b result }
{
    let mut x = a;
    let mut y = b;
    while y != 0 {
        let rest = x % y;
        x = y;
        y = rest;
    }
    x
}
