// Whether LINK is among the first steps of a plan.
ghost use Rattle.std.specs.Prelude.{◌≡◌, ◌≤◌};
ghost use Rattle.steps.specs.Steps.{whole_steps};
ghost use Rattle.carry.specs.Carry.{link_within};

use steps::Step;
use steps::reading::step_at;

// Whether LINK is among the first `n` steps. In most plans it stands near the end, so it is looked for from there.
pub fn link_within(plan: &[u8], n: usize) -> bool
    requires { n ≤ whole_steps plan.now }
    ensures { result ≡ link_within plan.now n }
{
    (0..n)
        .rev()
        .any(|i| matches!(step_at(plan, i), Some(Step::Link { .. })))
}
