// The worked examples of the documents, as one theorem over the definitions that the contracts cite.
ghost use Rattle.std.specs.Prelude.{◌≡◌, sum};
ghost use Rattle.cards.specs.Examples.{WorkedExamples, five_and_two};

// The total of the first example: amounts 5 and 2 at one station.
pub fn worked_examples() -> u32
    ensures theorem { WorkedExamples }
    ensures total { result ≡ sum five_and_two.numbers }
{
    5 + 2
}
