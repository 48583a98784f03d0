// The first stages of a fold for C and other languages: `stages::mezburiko_worklist`, exported.
#![tactic(auto)]

ghost use Rattle.std.specs.Prelude.{◌≡◌};
ghost use Rattle.graph.specs.Decode.{decode};
ghost use Rattle.stages.specs.Stages.{number_in, pops_in};

#[unsafe(no_mangle)]
pub extern "C" fn mezburiko_worklist(input: &[u8], pops: &mut usize) -> u8
    ensures number { result ≡ number_in (decode input.now) }
    ensures pops { pops.new ≡ pops_in (decode input.now) }
{
    stages::mezburiko_worklist(input, pops)
}
