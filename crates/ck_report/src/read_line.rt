ghost use Rattle.std.specs.Prelude.{◌≡◌, ◌<◌, ◌^◌, ℕ, [], ◌∷◌, length, codes, decimal, MatchOption};
ghost use Rattle.ck_history.specs.declared.update.Reply.{Reply};
ghost use Rattle.ck_text.specs.Words.{words};
ghost use Rattle.ck_report.specs.Text.{reply_words, found_words};
ghost use Rattle.ck_report.specs.Reports.{IsReply, IsFound, IsAnswer, IsPair};
ghost use Rattle.ck_report.specs.Lines.{IsRead, IsShort, IsTaken, line_words};

use crate::asked::Asked;
use crate::line::ReportLine;
use ck_history::Reply;
use ck_script::KeyWord;
use ck_text::{cut, read_number};

/// What the line says, where it says something that a report may say.
pub fn read_line<K: KeyWord>(line: &[u8]) -> Option<ReportLine<K>>
    ensures { IsRead (λ said. IsTaken K.is_key said × IsShort said) (line_words K.spelling) line.now result }
{
    match first_of_more(line) {
        None => {
            if line == b"end".as_slice() {
                Some(ReportLine::End)
            } else {
                None
            }
        }
        Some((verb, rest)) => {
            if verb == b"u".as_slice() {
                let (number, reply) = numbered_reply(rest)?;
                Some(ReportLine::Update { number, reply })
            } else if verb == b"q".as_slice() {
                let (file, number, asked) = numbered_answer(rest)?;
                Some(ReportLine::Answer {
                    file,
                    number,
                    asked,
                })
            } else if verb == b"t".as_slice() {
                let (key, value) = pair(rest)?;
                Some(ReportLine::Pair { key, value })
            } else {
                None
            }
        }
    }
}

// The number and the reply.
#[tactic(auto, using(crate::proofs::Words::some_reply_words))]
fn numbered_reply(text: &[u8]) -> Option<(u64, Reply)>
    ensures { IsRead (λ x. (x.0 < 2 ^ 64) × IsReply x.1) (λ x. decimal x.0 ∷ reply_words x.1) text.now result }
{
    let (number, rest) = first_of_more(text)?;
    let number = read_number(number)?;
    let reply = read_reply(rest)?;
    Some((number, reply))
}

// The file, the number and the answer.
fn numbered_answer<K: KeyWord>(text: &[u8]) -> Option<(u64, u64, Asked<K>)>
    ensures { IsRead (λ x. (x.0 < 2 ^ 64) × (x.1 < 2 ^ 64) × IsAnswer K.is_key x.2)
        (λ x. decimal x.0 ∷ decimal x.1 ∷ K.spelling x.2.key ∷ found_words x.2.found) text.now result }
{
    let (file, rest) = first_of_more(text)?;
    let file = read_number(file)?;
    let (number, rest) = first_of_more(rest)?;
    let number = read_number(number)?;
    let asked = read_asked(rest)?;
    Some((file, number, asked))
}

// The key and what was found beside it.
#[tactic(auto, using(crate::proofs::Words::some_found_words))]
fn read_asked<K: KeyWord>(text: &[u8]) -> Option<Asked<K>>
    ensures { IsRead (IsAnswer K.is_key) (λ a. K.spelling a.key ∷ found_words a.found) text.now result }
{
    let (key, rest) = first_of_more(text)?;
    let key = read_key(key)?;
    let found = read_found(rest)?;
    Some(Asked { key, found })
}

// The key and its value.
fn pair<K: KeyWord>(text: &[u8]) -> Option<(K, u64)>
    ensures { IsRead (IsPair K.is_key) (λ p. K.spelling p.0 ∷ codes "=" ∷ decimal p.1 ∷ []) text.now result }
{
    let Asked { key, found } = read_asked(text)?;
    let value = found?;
    Some((key, value))
}

// The key that the word spells.
fn read_key<K: KeyWord>(word: &[u8]) -> Option<K>
    ensures { MatchOption result ((k : K) → K.is_key k → word.now ≡ K.spelling k → ⊥) (λ k. K.is_key k × (word.now ≡ K.spelling k)) }
{
    match K::read_word(word) {
        Ok(key) => Some(key),
        Err(_) => None,
    }
}

// The reply.
fn read_reply(text: &[u8]) -> Option<Reply>
    ensures { IsRead IsReply reply_words text.now result }
{
    match first_of_more(text) {
        None => plain_reply(text),
        Some((name, rest)) => {
            let value = only_number(rest)?;
            if name == b"was".as_slice() {
                Some(Reply::Was(value))
            } else if name == b"has".as_slice() {
                Some(Reply::Has(value))
            } else {
                None
            }
        }
    }
}

// The reply that the word is.
fn plain_reply(word: &[u8]) -> Option<Reply>
    ensures { MatchOption result ((r : Reply) → reply_words r ≡ word.now ∷ [] → ⊥) (λ r. IsReply r × (reply_words r ≡ word.now ∷ [])) }
{
    if word == b"fresh".as_slice() {
        Some(Reply::Fresh)
    } else if word == b"missing".as_slice() {
        Some(Reply::Missing)
    } else if word == b"tidied".as_slice() {
        Some(Reply::Tidied)
    } else if word == b"full".as_slice() {
        Some(Reply::Full)
    } else {
        None
    }
}

// What was found.
fn read_found(text: &[u8]) -> Option<Option<u64>>
    ensures { IsRead IsFound found_words text.now result }
{
    match first_of_more(text) {
        None => {
            if text == b"absent".as_slice() {
                Some(None)
            } else {
                None
            }
        }
        Some((sign, rest)) => {
            let value = only_number(rest)?;
            if sign == b"=".as_slice() {
                Some(Some(value))
            } else {
                None
            }
        }
    }
}

// The number that is the one word.
fn only_number(text: &[u8]) -> Option<u64>
    ensures { IsRead (λ n. n < 2 ^ 64) (λ n. decimal n ∷ []) text.now result }
{
    match first_of_more(text) {
        None => read_number(text),
        Some(_) => None,
    }
}

// The first word of two or more, and what stands after it. None where the text is one word.
fn first_of_more(text: &[u8]) -> Option<(&[u8], &[u8])>
    ensures { MatchOption result (words text.now ≡ text.now ∷ []) (λ x. (words text.now ≡ x.0.now ∷ words x.1.now) × (0 < length (words x.1.now))) }
{
    let (word, rest) = cut(text, b' ');
    match rest {
        None => None,
        Some(rest) => Some((word, rest)),
    }
}
