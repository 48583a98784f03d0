// The fold for C and other languages: `folding::mezburiko_fold`, exported.
#![tactic(auto)]

ghost use Rattle.std.specs.Prelude.{◌≡◌, ℕ, ◌≤◌, take, drop};
ghost use Rattle.std.proofs.Math.ListN as ListN;
ghost use Rattle.ir.specs.Limits.{max_answer};
ghost use Rattle.graph.specs.Decode.{accepted, decode, graph_of};
ghost use Rattle.model.specs.Offer.{literals};
ghost use Rattle.model.specs.Worklist.{after, Waiting};
ghost use Rattle.model.specs.Outcome.{numbers_of, written, outcome};
ghost use Rattle.folding.specs.Demands.{Refusals, EndlessAt, OrderFree, AnswerOf, PopsOf, FinitePlan, CleanWires, BranchesUnknown, TooManyWires};

#[unsafe(no_mangle)]
pub extern "C" fn mezburiko_fold(
    input: &[u8],
    out: &mut [u8],
    place: &mut usize,
    length: &mut usize,
    pops: &mut usize,
) -> u8
    ensures result { record { number = result; place = place.new; length = length.new; pops = pops.new } ≡ numbers_of (outcome input.now (ListN.length out.old)) }
    ensures buffer { out.new ≡ written (outcome input.now (ListN.length out.old)) out.old }
    ensures untouched { 1 ≤ result → out.new ≡ out.old }
    ensures past { drop length.new out.new ≡ drop length.new out.old }
    ensures fits { length.new ≤ ListN.length out.old }
    ensures refusals { Refusals input.now (ListN.length out.old) (record { number = result; place = place.new; length = length.new; pops = pops.new }) }
    ensures offset { result ≡ 9 → EndlessAt input.now place.new }
    ensures read { result ≡ 0 → decode input.now ≡ accepted (graph_of input.now) }
    ensures order_free { OrderFree (graph_of input.now) }
    ensures answer { result ≡ 0 → AnswerOf (graph_of input.now) (take length.new out.new) }
    ensures pops { result ≡ 0 → PopsOf (graph_of input.now) pops.new }
    ensures finite { FinitePlan (graph_of input.now) }
    ensures clean { CleanWires (graph_of input.now) }
    ensures branches { BranchesUnknown (graph_of input.now) }
    ensures longest { length.new ≤ max_answer }
    ensures enough { max_answer ≤ ListN.length out.old → result ≡ 10 → TooManyWires (graph_of input.now) }
    ensures waiting { (k : ℕ) → Waiting (graph_of input.now) (after (literals (graph_of input.now)) (graph_of input.now) k) }
{
    folding::mezburiko_fold(input, out, place, length, pops)
}
