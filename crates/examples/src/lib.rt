// Examples of what rules mean, proved of the definitions that the library's contracts cite.
#![tactic(auto)]

ghost use Rattle.std.specs.Prelude.{◌≡◌, length};
ghost use Rattle.examples.specs.Table.{table, AllShown};

// How many examples there are. Each of them holds.
pub fn count() -> usize
    ensures count { result ≡ length table }
    ensures shown { AllShown table }
{
    6
}
