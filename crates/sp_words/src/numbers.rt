// The numbers that the words give: the value of `--budget`, and N.
ghost use Rattle.std.specs.Prelude.{ℕ, MatchOption};
ghost use Rattle.sp_words.specs.Line.{IsBudget, IsNumeral, IsSize};
ghost use Rattle.std.specs.Prelude.{Some, option_map};

/// How many moves a proof may have that is grown, where nothing else is said.
const DEFAULT: u64 = 10_000;

/// The most moves that may be asked for.
const MOST_MOVES: u64 = 1_000_000;

/// The greatest number of which a theory is made.
const MOST_MADE: u64 = 500;

/// The number that a numeral from 1 to the most there may be writes, without a sign or a leading zero.
fn numeral(text: &str, most: u64) -> Option<u64>
    ensures { MatchOption result ((n : ℕ) → ¬ IsNumeral most text.now n) (IsNumeral most text.now) }
{
    if text.starts_with("+") || text.starts_with("0") {
        return None;
    }
    match text.parse::<u64>() {
        Ok(number) if 1 <= number && number <= most => Some(number),
        _ => None,
    }
}

/// How many moves a proof may have that is grown, by the value that is given.
pub(crate) fn budget_by(given: Option<&str>) -> Option<u64>
    ensures { MatchOption result ((budget : ℕ) → ¬ IsBudget (option_map (λ s. s.now) given.entry) budget) (IsBudget (option_map (λ s. s.now) given.entry)) }
{
    match given {
        Some(text) => numeral(text, MOST_MOVES),
        None => Some(DEFAULT),
    }
}

/// The number of which a theory is made, by the value that is given.
pub(crate) fn size_by(text: &str) -> Option<u16>
    ensures { MatchOption result ((n : ℕ) → ¬ IsSize text.now n) (IsSize text.now) }
{
    let number = numeral(text, MOST_MADE)?;
    u16::try_from(number).ok()
}
