// The first stages of a fold by themselves, decoding, index and worklist, for tools that time them.
#![tactic(auto)]

ghost use Rattle.std.specs.Prelude.{◌≡◌};
ghost use Rattle.graph.specs.Decode.{decode};
ghost use Rattle.stages.specs.Stages.{number_in, pops_in};

use ir::limit;
use state::{Known, Plan};

// The refusal's number of questions 1 to 8 and 12, or 0, and the pops of the worklist.
pub fn mezburiko_worklist(input: &[u8], pops: &mut usize) -> u8
    ensures number { result ≡ number_in (decode input.now) }
    ensures pops { pops.new ≡ pops_in (decode input.now) }
{
    let own = [resolve::SET_NOTHING; limit::NODES];
    let mut known = Known::new();
    let mut plan = Plan::new();
    match propagation::propagate(input, &own, &mut known, &mut plan) {
        Ok(propagated) => {
            *pops = propagated.pops;
            0
        }
        Err(refusal) => {
            *pops = 0;
            refusal.number()
        }
    }
}
