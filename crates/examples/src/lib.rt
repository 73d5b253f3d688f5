// Worked examples: codewords, readings, edits, conversions, stored bytes and printed reports with their known answers.
#![tactic(auto)]

ghost use Rattle.std.specs.Prelude.{◌≡◌, length};
ghost use Rattle.examples.specs.Table.{table, EveryRowHolds};

// How many examples there are, each of which holds of the definitions that the libraries' contracts cite.
pub fn row_count() -> usize
    ensures count { result ≡ length table }
    ensures hold { EveryRowHolds }
{
    34
}
