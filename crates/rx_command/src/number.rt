ghost use Rattle.std.specs.Prelude.{◌≡◌, ◌≤◌, ℕ, MatchOption};
ghost use Rattle.std.specs.Char.{is_ascii_digit};
ghost use Rattle.std.specs.List.{list_all};
ghost use Rattle.std.specs.Str.{chars};
ghost use Rattle.rx_command.specs.Command.{IsDecimal};

fn are_digits(bytes: &[u8]) -> bool
    ensures { result ≡ list_all is_ascii_digit bytes.now }
{
    bytes.iter().all(|byte| byte.is_ascii_digit())
}

/// The value of a decimal without sign, or none where the word is none, or has more digits than the longest that is read.
pub fn decimal_value(word: &str, longest: usize) -> Option<u64>
    requires { longest ≤ 19 }
    ensures { MatchOption result
        ((n : ℕ) → ¬ IsDecimal longest (chars word.now) n)
        (λ n. IsDecimal longest (chars word.now) n) }
{
    if word.len() > longest {
        return None;
    }
    if !are_digits(word.as_bytes()) {
        return None;
    }
    word.parse::<u64>().ok()
}
