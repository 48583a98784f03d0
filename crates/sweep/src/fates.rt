// What becomes of the nodes that are taken.
ghost use Rattle.std.specs.Prelude.{◌≡◌, cond, false, ℕ, ◌<◌, get_or};
ghost use Rattle.ir.specs.Limits.{max_nodes};
ghost use Rattle.sweep.specs.Queue.{taken_action};

use ir::limit;
use state::SHORT_CIRCUIT;

// The action of a node that is taken is a planned Select's: both have the same fate.
fn action_of(taken: bool, action: u8) -> u8
    ensures { result ≡ cond taken taken_action action }
{
    if taken { SHORT_CIRCUIT } else { action }
}

// The actions, with the nodes that are taken as removed.
pub fn remove(
    taken: &[bool; limit::NODES],
    actions: &[u8; limit::NODES],
    swept: &mut [u8; limit::NODES],
)
    ensures { (n : ℕ) → n < max_nodes → get_or swept.new n 0 ≡ cond (get_or taken.now n false) taken_action (get_or actions.now n 0) }
{
    for n in 0..limit::NODES {
        swept[n] = action_of(taken[n], actions[n]);
    }
}
