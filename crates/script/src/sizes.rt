// A product with the lanes, which is worked out here alone: words of rounds and of stages are so many of these a lane.
ghost use Rattle.std.specs.Prelude.{◌≡◌, ◌*◌, ◌≤◌};

// The lanes of so many rounds or stages.
pub fn lanes_in(lanes: usize, runs: usize) -> usize
    requires { (lanes ≤ 256) × (runs ≤ 255) }
    ensures { (result ≡ lanes * runs) × (result ≤ 65280) }
{
    lanes * runs
}
