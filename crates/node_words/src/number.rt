// A number in a word.
ghost use Rattle.std.specs.Prelude.{◌≡◌, ℕ, ◌<◌, ◌^◌, Some, MatchOption, decimal};
ghost use Rattle.std.specs.Int.{IsPowerOfTwo};
ghost use Rattle.node_words.specs.Words.{IsNumber};

// The number whose digits these are, and of other texts none or any.
fn parsed(text: &str) -> Option<u32>
    ensures { (number : ℕ) → number < 2 ^ 32 → text.now ≡ decimal number → result ≡ Some number }
{
    text.parse::<u32>().ok()
}

/// The number that decimal digits without a leading zero spell, where it is in the range; else none.
pub fn number_of(text: &str, least: u32, greatest: u32) -> Option<u32>
    ensures { MatchOption result ((n : ℕ) → IsNumber least greatest text.now n → ⊥) (IsNumber least greatest text.now) }
{
    let number = parsed(text)?;
    let mut buffer = itoa::Buffer::new();
    if number < least || number > greatest || buffer.format(number) != text {
        return None;
    }
    Some(number)
}

/// The number that decimal digits without a leading zero spell, where it is in the range and a power of two; else
/// none.
pub fn power_of(text: &str, least: u32, greatest: u32) -> Option<u32>
    ensures { MatchOption result ((n : ℕ) → IsNumber least greatest text.now n → IsPowerOfTwo n → ⊥) (λ n. IsNumber least greatest text.now n × IsPowerOfTwo n) }
{
    let number = number_of(text, least, greatest)?;
    if number.is_power_of_two() {
        Some(number)
    } else {
        None
    }
}
