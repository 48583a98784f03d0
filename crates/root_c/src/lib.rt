// The whole root for C and other languages: `root::mezburiko_whole_root`, exported.
#![tactic(auto)]

ghost use Rattle.std.specs.Prelude.{◌≡◌};
ghost use Rattle.root.specs.WholeRoot.{IsWholeRoot, OnlyWholeRoot, whole_root_of};

#[unsafe(no_mangle)]
pub extern "C" fn mezburiko_whole_root(n: u64, remainder: &mut u64) -> u64
    ensures root { IsWholeRoot n result remainder.new }
    ensures only { OnlyWholeRoot n result remainder.new }
    ensures largest { result ≡ whole_root_of n }
{
    root::mezburiko_whole_root(n, remainder)
}
