// The words for the refusals.
// One short text for each number of the refusal table.
ghost use Rattle.std.specs.Prelude.{◌≡◌};
ghost use Rattle.cli.specs.Words.{refusal_words};

// What a refusal's number means, in words.
// It is a number in the rules and in the C interface, and definition `refusal_words` takes any number.
#[tactic(auto, unfolding(crate::specs::Words::refusal_words, crate::specs::Words::meanings, crate::specs::Words::unknown))]
pub fn meaning(n: u8) -> &'static str
    ensures { result.now ≡ refusal_words n }
{
    match n {
        1 => "a range, stamp or offset out of bounds",
        2 => "the calendar is longer than 65,536 bytes",
        3 => "the work buffer is shorter than the calendar",
        4 => "the query is badly formed",
        5 => "a time range where none can be",
        6 => "a line is badly formed",
        7 => "the nesting is wrong",
        8 => "something that is not supported",
        9 => "a bad value",
        10 => "a component rule is broken",
        11 => "more than 512 busy pieces",
        12 => "the output buffer is shorter than the report",
        _ => "a number that is no refusal's",
    }
}
