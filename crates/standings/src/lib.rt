// Examples of how rules stand while their trace goes on, proved of the definitions that the library's contracts cite.
#![tactic(auto)]

ghost use Rattle.std.specs.Prelude.{◌≡◌, length};
ghost use Rattle.standings.specs.Table.{table, AllShown, ReadTabled, Told};

// How many examples there are. Each of them holds. They are about every rule with the tree's table: what is read from the text is
// one, and a standing that tells of the events says what the example says.
pub fn count() -> usize
    ensures count { result ≡ length table }
    ensures shown { AllShown table }
    ensures read { ReadTabled }
    ensures told { Told }
{
    8
}
