//! Numbers in decimal, without needless zeros.

ghost use Rattle.std.specs.Prelude.{◌≡◌, ◌≢◌, ℕ, ◌<◌, ◌≤◌, ◌^◌, decimal, IfSome, IfNone};

use itoa::Buffer;

// The most months between dates.
const MOST_EVERY: u64 = 1200;

/// The number that a word is in decimal: without a sign, and without needless zeros.
pub(crate) fn number_of(word: &str) -> Option<u64>
    ensures some { IfSome result (λ number. word.now ≡ decimal number) }
    ensures fits { IfSome result (λ number. number < 2 ^ 64) }
    ensures none { IfNone result ((number : ℕ) → number < 2 ^ 64 → word.now ≢ decimal number) }
{
    let Ok(number) = word.parse::<u64>() else {
        return None;
    };
    // the number's own text rules out a plus sign and needless zeros
    if Buffer::new().format(number) == word {
        Some(number)
    } else {
        None
    }
}

// The months between dates.
pub(crate) fn months_of(word: &str) -> Option<u32>
    ensures some { IfSome result (λ every. (word.now ≡ decimal every) × (1 ≤ every) × (every ≤ 1200)) }
    ensures none { IfNone result ((every : ℕ) → 1 ≤ every → every ≤ 1200 → word.now ≢ decimal every) }
{
    match number_of(word) {
        Some(every) if every >= 1 && every <= MOST_EVERY => Some(every as u32),
        _ => None,
    }
}
