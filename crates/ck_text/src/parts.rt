ghost use Rattle.std.specs.Prelude.{◌≡◌, ◌<◌, ◌==◌, [], ◌∷◌, length, count_by, MatchOption, IfSome};
ghost use Rattle.ck_text.specs.Lines.{parts, lines};

use memchr::memchr;

/// Of so many bytes a byte counts the line feeds: below 256, and a multiple of 16.
const FEW: usize = 240;

/// The part before the first byte equal to `at`, and what stands after that byte, if there is one.
pub fn cut(bytes: &[u8], at: u8) -> (&[u8], Option<&[u8]>)
    ensures parts { MatchOption result.1
        (parts at bytes.now ≡ result.0.now ∷ [])
        (λ rest. parts at bytes.now ≡ result.0.now ∷ parts at rest.now) }
    ensures whole { result.1 ≡ None → result.0.now ≡ bytes.now }
    ensures shorter { IfSome result.1 (λ rest. length rest.now < length bytes.now) }
{
    match memchr(at, bytes) {
        Some(i) => (&bytes[..i], Some(&bytes[i + 1..])),
        None => (bytes, None),
    }
}

/// The first line of a text that has one, and the text after it.
pub fn first_line(bytes: &[u8]) -> (&[u8], &[u8])
    requires { 0 < length bytes.now }
    ensures lines { lines bytes.now ≡ result.0.now ∷ lines result.1.now }
    ensures shorter { length result.1.now < length bytes.now }
{
    let (line, rest) = cut(bytes, b'\n');
    match rest {
        Some(rest) => (line, rest),
        None => (line, &bytes[bytes.len()..]),
    }
}

/// How many lines a text has.
pub fn count_lines(bytes: &[u8]) -> u64
    ensures { result ≡ length (lines bytes.now) }
{
    let feeds = count_feeds(bytes);
    if bytes.is_empty() {
        return 0;
    }
    if bytes[bytes.len() - 1] == b'\n' {
        feeds
    } else {
        feeds + 1
    }
}

// How many line feeds a text has.
fn count_feeds(bytes: &[u8]) -> u64
    ensures { result ≡ count_by (λ b. b == 10) bytes.now }
{
    let mut count: u64 = 0;
    let mut rest = bytes;
    while rest.len() > FEW {
        let (few, later) = rest.split_at(FEW);
        count += u64::from(count_few_feeds(few));
        rest = later;
    }
    count + u64::from(count_few_feeds(rest))
}

// How many line feeds few bytes have: a sum without a branch, in one byte, which compilers make of 16 bytes at a time.
fn count_few_feeds(bytes: &[u8]) -> u8
    requires { length bytes.now < 256 }
    ensures { result ≡ count_by (λ b. b == 10) bytes.now }
{
    let mut count: u8 = 0;
    for b in bytes {
        count += if *b == b'\n' { 1 } else { 0 };
    }
    count
}
