ghost use Rattle.std.specs.Prelude.{◌≡◌, ◌≢◌, ◌<◌, ◌^◌, [], ◌∷◌, length, decimal, IfSome, MatchOption, MatchResult};
ghost use Rattle.ck_script.specs.declared.fault.Why.TheVariants.{Shape};
ghost use Rattle.ck_script.specs.Reading.{words_after, HasKeyPrefix, HasPairPrefix};
ghost use Rattle.ck_script.specs.Grammar.{key, number, HasArgumentFault};

use crate::fault::Why;
use crate::key_word::KeyWord;
use ck_text::{cut, number_prefix, read_number};

/// The key and the number that stand after a verb.
pub fn key_and_number<K: KeyWord>(rest: Option<&[u8]>) -> Result<(K, u64), Why>
    ensures { MatchResult result
        (λ x. K.is_key x.0 × (x.1 < 2 ^ 64) × (words_after rest.entry ≡ K.spelling x.0 ∷ decimal x.1 ∷ []))
        (HasArgumentFault K.is_key K.spelling K.is_fault (key ∷ number ∷ []) (words_after rest.entry)) }
{
    match two_words(rest) {
        None => Err(Why::Shape),
        Some((first, second)) => {
            let k = K::read_word(first)?;
            match read_number(second) {
                Some(n) => Ok((k, n)),
                None => Err(Why::Number),
            }
        }
    }
}

/// The key that stands after a verb.
pub fn only_key<K: KeyWord>(rest: Option<&[u8]>) -> Result<K, Why>
    ensures { MatchResult result
        (λ k. K.is_key k × (words_after rest.entry ≡ K.spelling k ∷ []))
        (HasArgumentFault K.is_key K.spelling K.is_fault (key ∷ []) (words_after rest.entry)) }
{
    match one_word(rest) {
        None => Err(Why::Shape),
        Some(word) => K::read_word(word),
    }
}

/// The number that stands after a verb.
pub fn only_number<K: KeyWord>(rest: Option<&[u8]>) -> Result<u64, Why>
    ensures { MatchResult result
        (λ n. (n < 2 ^ 64) × (words_after rest.entry ≡ decimal n ∷ []))
        (HasArgumentFault K.is_key K.spelling K.is_fault (number ∷ []) (words_after rest.entry)) }
{
    match one_word(rest) {
        None => Err(Why::Shape),
        Some(word) => read_number(word).ok_or(Why::Number),
    }
}

/// The two numbers that stand after a verb.
pub fn two_numbers<K: KeyWord>(rest: Option<&[u8]>) -> Result<(u64, u64), Why>
    ensures { MatchResult result
        (λ x. (x.0 < 2 ^ 64) × (x.1 < 2 ^ 64) × (words_after rest.entry ≡ decimal x.0 ∷ decimal x.1 ∷ []))
        (HasArgumentFault K.is_key K.spelling K.is_fault (number ∷ number ∷ []) (words_after rest.entry)) }
{
    match two_words(rest) {
        None => Err(Why::Shape),
        Some((first, second)) => {
            let a = read_number(first).ok_or(Why::Number)?;
            let b = read_number(second).ok_or(Why::Number)?;
            Ok((a, b))
        }
    }
}

/// Whether nothing stands after a verb.
pub fn no_word(rest: Option<&[u8]>) -> Result<(), Why>
    ensures { MatchResult result
        (λ _. words_after rest.entry ≡ [])
        (λ why. (why ≡ Shape) × (length (words_after rest.entry) ≢ 0)) }
{
    match rest {
        None => Ok(()),
        Some(_) => Err(Why::Shape),
    }
}

// The two words that stand after a verb, where they are two.
fn two_words(rest: Option<&[u8]>) -> Option<(&[u8], &[u8])>
    ensures { MatchOption result (length (words_after rest.entry) ≢ 2) (λ x. words_after rest.entry ≡ x.0.now ∷ x.1.now ∷ []) }
{
    let (first, more) = cut(rest?, b' ');
    let second = one_word(more)?;
    Some((first, second))
}

// The word that stands after a verb, where it is one.
fn one_word(rest: Option<&[u8]>) -> Option<&[u8]>
    ensures { MatchOption result (length (words_after rest.entry) ≢ 1) (λ w. words_after rest.entry ≡ w.now ∷ []) }
{
    let (word, more) = cut(rest?, b' ');
    match more {
        None => Some(word),
        Some(_) => None,
    }
}

/// The key and the number that a text begins with, and how many bytes they take with the space between them and the line
/// feed after them. None says nothing.
pub fn pair_prefix<K: KeyWord>(text: &[u8]) -> Option<(K, u64, usize)>
    ensures { IfSome result (λ x. HasPairPrefix K.is_key K.spelling text.now x.0 x.1 x.2) }
{
    let (key, m) = K::read_prefix(text)?;
    if text[m] != b' ' {
        return None;
    }
    let (_, rest) = text.split_at(m + 1);
    let (number, n) = number_prefix(rest)?;
    if rest[n] != b'\n' {
        return None;
    }
    Some((key, number, (m + 1) + (n + 1)))
}

/// The key that a text begins with, and how many bytes it takes with the line feed after it. None says nothing.
pub fn key_prefix<K: KeyWord>(text: &[u8]) -> Option<(K, usize)>
    ensures { IfSome result (λ x. HasKeyPrefix K.is_key K.spelling text.now x.0 x.1) }
{
    let (key, m) = K::read_prefix(text)?;
    if text[m] != b'\n' {
        return None;
    }
    Some((key, m + 1))
}
