ghost use Rattle.std.specs.Prelude.{◌≡◌, ◌<◌, ◌≤◌, ◌^◌, ◌+◌, ◌*◌, ◌⊎◌, ◌↔◌, ℕ, decimal, length, take, IsTrue, MatchOption, IfSome, IfNone};
ghost use Rattle.std.specs.Char.{digit_value, IsAsciiDigit};
ghost use Rattle.ck_text.specs.Decimals.{IsNumber, IsSpelt};

/// The number, at most `most`, whose one spelling the word is.
pub fn read_decimal(word: &[u8], most: u128) -> Option<u128>
    ensures { MatchOption result
        ((n : ℕ) → n ≤ most → decimal n ≡ word.now → ⊥)
        (λ n. (n ≤ most) × (word.now ≡ decimal n)) }
{
    if word.is_empty() {
        return None;
    }
    if word[0] == b'0' && word.len() > 1 {
        return None;
    }
    let mut n: u128 = 0;
    for b in word {
        match with_digit(n, *b, most) {
            Some(more) => n = more,
            None => return None,
        }
    }
    Some(n)
}

// The number with one more digit, where the byte is one and the number is still at most `most`.
fn with_digit(n: u128, b: u8, most: u128) -> Option<u128>
    ensures some { IfSome result (λ more. (more ≡ n * 10 + digit_value b) × (digit_value b < 10) × (more ≤ most)) }
    ensures none { IfNone result ((10 ≤ digit_value b) ⊎ (most < n * 10 + digit_value b)) }
{
    if !b.is_ascii_digit() {
        return None;
    }
    let more = n.checked_mul(10)?.checked_add((b - b'0') as u128)?;
    if more <= most { Some(more) } else { None }
}

/// The number of 64 bits whose one spelling the word is.
pub fn read_number(word: &[u8]) -> Option<u64>
    ensures { MatchOption result (IsNumber word.now → ⊥) (λ n. (n < 2 ^ 64) × (word.now ≡ decimal n)) }
{
    match read_decimal(word, u64::MAX as u128) {
        Some(n) => Some(n as u64),
        None => None,
    }
}

/// The number of less than 20 digits that a text begins with, and how many digits it has. Something stands after them.
/// None says nothing.
pub fn number_prefix(text: &[u8]) -> Option<(u64, usize)>
    ensures { IfSome result (λ x. (x.0 < 2 ^ 64) × (x.1 < length text.now) × (take x.1 text.now ≡ decimal x.0)) }
{
    let mut n: u64 = 0;
    for (i, b) in text.iter().enumerate() {
        if !b.is_ascii_digit() {
            return if is_spelt(text[0], i) {
                Some((n, i))
            } else {
                None
            };
        }
        // A longer number may need more than 64 bits.
        if n >= MOST_BEFORE {
            return None;
        }
        n = add_digit(n, *b);
    }
    None
}

// Numbers below this take a further digit in 64 bits.
const MOST_BEFORE: u64 = 1_000_000_000_000_000_000;

// The number with one more digit.
#[inline(always)]
fn add_digit(n: u64, b: u8) -> u64
    requires digit { IsAsciiDigit b }
    requires small { n < 10 ^ 18 }
    ensures more { result ≡ n * 10 + digit_value b }
    ensures digit { digit_value b < 10 }
{
    n * 10 + (b - b'0') as u64
}

// Whether so many digits, of which this is the first, are the one spelling of a number.
fn is_spelt(first: u8, count: usize) -> bool
    ensures { IsTrue result ↔ IsSpelt first count }
{
    count == 1 || count > 1 && first != b'0'
}
