//! The numbers that are drawn from a seed.

ghost use Rattle.std.specs.Prelude.{◌≡◌, ◌<◌};
ghost use Rattle.out_workload.specs.Draws.{after_loop, loop_at, next_state};

/// A loop: the number of its variable, its bound, and its step.
#[derive(Clone, Copy)]
pub(crate) struct Loop {
    pub variable: u32,
    pub bound: u32,
    pub step: u32,
}

/// The state after a draw.
pub(crate) fn next(state: u32) -> u32
    requires { state < 2147483648 }
    ensures next { result ≡ next_state state }
    ensures small { result < 2147483648 }
{
    ((1103515245 * state as u64 + 12345) % 2147483648) as u32
}

/// The next loop, by three draws, and the state after them.
pub(crate) fn next_loop(state: u32) -> (Loop, u32)
    requires { state < 2147483648 }
    ensures made { result.0 ≡ loop_at state }
    ensures after { result.1 ≡ after_loop state }
    ensures small { result.1 < 2147483648 }
{
    let first = next(state);
    let second = next(first);
    let third = next(second);
    let made = Loop {
        variable: first / 65536 % 3,
        bound: 1 + second / 65536 % 100,
        step: 1 + third / 65536 % 9,
    };
    (made, third)
}
