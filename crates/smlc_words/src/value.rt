//! Single words: operands and numbers.

ghost use Rattle.std.specs.Prelude.{ℕ, ◌↔◌, IsTrue, IfSome, IfNone};
ghost use Rattle.smlc_words.specs.Given.{IsOperand, IsNumber, IsBetween};

/// Whether the word isn't empty and doesn't begin with `-`.
pub fn is_operand(word: &str) -> bool
    ensures { IsTrue result ↔ IsOperand word.now }
{
    match word.as_bytes() {
        [] => false,
        [b'-', ..] => false,
        _ => true,
    }
}

/// The number that the word's 1 to 20 decimal digits write, if it lies between the bounds.
pub fn number(word: &str, low: u64, high: u64) -> Option<u64>
    ensures some { IfSome result (λ n. IsNumber word.now n × IsBetween low high n) }
    ensures none { IfNone result ((n : ℕ) → IsNumber word.now n → IsBetween low high n → ⊥) }
{
    if word.len() > 20 || word.starts_with('+') {
        return None;
    }
    match word.parse::<u64>() {
        Ok(n) if low <= n && n <= high => Some(n),
        _ => None,
    }
}
