//! Random draws: the state of the generator behind a draw, and the number that the draw gives.
ghost use Rattle.std.specs.Prelude.{◌≡◌, ◌<◌, ◌^◌};
ghost use Rattle.workload.specs.Draws.{next_state, drawn};

/// The state after one more draw.
#[tactic(auto, unfolding(crate::specs::Draws::next_state))]
pub fn next_state(x: u64) -> u64
    ensures value { result ≡ next_state x }
    ensures less { result < 2 ^ 31 }
{
    let next = (1103515245u128 * u128::from(x) + 12345) % (1 << 31);
    next as u64
}

/// The number below this one that a draw gives which leaves this state.
pub fn drawn(below: u64, x: u64) -> u64
    requires some { 0 < below }
    ensures value { result ≡ drawn below x }
    ensures less { result < below }
{
    (x / 65536) % below
}
