ghost use Rattle.std.specs.Prelude.{◌≡◌, ◌≤◌, length, take, IsTrue, IfSome, MatchResult};
ghost use Rattle.ck_script.specs.Grammar.{Says};
ghost use Rattle.ck_script.specs.Reading.{HasLinePrefix};
ghost use Rattle.ck_text.specs.Words.{words};

use crate::arguments::{
    key_and_number, key_prefix, no_word, only_key, only_number, pair_prefix, two_numbers,
};
use crate::fault::Why;
use crate::key_word::KeyWord;
use crate::line::{AskLine, UpLine};
use ck_history::Update;
use ck_text::cut;

/// What one line of a script says, for the scripts of one kind.
pub trait ScriptLine: Copy {
    ghost use Rattle.std.specs.Prelude.{◌≡◌, ℕ, Bool, List};
    ghost use Rattle.ck_script.specs.declared.fault.Why.{Why};
    ghost use Rattle.ck_script.specs.Grammar.{IsSilent};
    ghost use Rattle.ck_text.specs.Words.{words};

    /// What a script may say.
    ghost is_taken: { Self → Type 0 };

    /// The words of the one line that says it.
    ghost spelling: { Self → List (List ℕ) };

    /// What is wrong with the words of a line that says nothing lawful.
    ghost is_fault: { List (List ℕ) → Why → Type 0 };

    /// Whether a task that comes to the line may have to wait.
    ghost waits: { Self → Bool };

    /// What the line says, or what is wrong with it.
    fn read_line(line: &[u8]) -> Result<Self, Why>
        ensures { MatchResult result (Says is_taken spelling line.now) (is_fault (words line.now)) };

    /// What the first line of a text says, and how many bytes it takes with its line feed. None says nothing.
    fn read_prefix(text: &[u8]) -> Option<(Self, usize)>
        ensures { IfSome result (λ x. HasLinePrefix is_taken spelling text.now x.0 x.1) };

    /// Whether a task that comes to the line may have to wait.
    fn waits(&self) -> bool
        ensures { result ≡ waits self.now };

    /// No two lines have the same words.
    ghost one_line: { (a b : Self) → is_taken a → is_taken b → spelling a ≡ spelling b → a ≡ b };

    /// Blank lines and comments say nothing.
    ghost speaks: { (what : Self) (line : List ℕ) → is_taken what → words line ≡ spelling what → IsSilent line → ⊥ };

    /// The words of a lawful line have no fault.
    ghost faultless: { (what : Self) (why : Why) → is_taken what → is_fault (spelling what) why → ⊥ };
}

impl<K: KeyWord> ScriptLine for UpLine<Update<K>> {
    ghost use Rattle.ck_script.specs.Grammar.{IsUpdateLine, update_words, update_verbs, HasFault};
    ghost use Rattle.ck_script.specs.Faultless.{update_faultless};
    ghost use Rattle.ck_script.specs.Fronts.{is_hold};
    ghost use Rattle.ck_script.specs.Unique.{one_update_line, update_speaks};

    ghost is_taken = { IsUpdateLine K.is_key };

    ghost spelling = { update_words K.spelling };

    ghost is_fault = { HasFault K.is_key K.spelling K.is_fault update_verbs };

    ghost waits = { is_hold };

    ghost one_line = { one_update_line K.is_key K.spelling K.one_key };

    ghost speaks = { update_speaks K.is_key K.spelling };

    ghost faultless = { update_faultless K.is_key K.spelling K.is_fault K.faultless };

    fn read_prefix(text: &[u8]) -> Option<(UpLine<Update<K>>, usize)> {
        if text.len() < 4 {
            return None;
        }
        let rest = text.split_at(4).1;
        if begins(text, b"set ") {
            let (key, value, n) = pair_prefix(rest)?;
            Some((UpLine::Call(Update::Set(key, value)), 4 + n))
        } else if begins(text, b"put ") {
            let (key, value, n) = pair_prefix(rest)?;
            Some((UpLine::Call(Update::Put(key, value)), 4 + n))
        } else if begins(text, b"del ") {
            let (key, n) = key_prefix(rest)?;
            Some((UpLine::Call(Update::Del(key)), 4 + n))
        } else {
            None
        }
    }

    fn read_line(line: &[u8]) -> Result<UpLine<Update<K>>, Why> {
        let (verb, rest) = cut(line, b' ');
        if verb == b"set".as_slice() {
            let (key, value) = key_and_number(rest)?;
            Ok(UpLine::Call(Update::Set(key, value)))
        } else if verb == b"put".as_slice() {
            let (key, value) = key_and_number(rest)?;
            Ok(UpLine::Call(Update::Put(key, value)))
        } else if verb == b"del".as_slice() {
            Ok(UpLine::Call(Update::Del(only_key(rest)?)))
        } else if verb == b"tidy".as_slice() {
            no_word(rest)?;
            Ok(UpLine::Call(Update::Tidy))
        } else if verb == b"hold".as_slice() {
            let (file, n) = two_numbers::<K>(rest)?;
            Ok(UpLine::Hold { file, n })
        } else {
            Err(Why::Verb)
        }
    }

    fn waits(&self) -> bool {
        matches!(self, UpLine::Hold { .. })
    }
}

impl<K: KeyWord> ScriptLine for AskLine<K> {
    ghost use Rattle.ck_script.specs.Grammar.{IsQueryLine, query_words, query_verbs, HasFault};
    ghost use Rattle.ck_script.specs.Faultless.{query_faultless};
    ghost use Rattle.ck_script.specs.Fronts.{is_wait};
    ghost use Rattle.ck_script.specs.Unique.{one_query_line, query_speaks};

    ghost is_taken = { IsQueryLine K.is_key };

    ghost spelling = { query_words K.spelling };

    ghost is_fault = { HasFault K.is_key K.spelling K.is_fault query_verbs };

    ghost waits = { is_wait };

    ghost one_line = { one_query_line K.is_key K.spelling K.one_key };

    ghost speaks = { query_speaks K.is_key K.spelling };

    ghost faultless = { query_faultless K.is_key K.spelling K.is_fault K.faultless };

    fn read_prefix(text: &[u8]) -> Option<(AskLine<K>, usize)> {
        if text.len() < 4 {
            return None;
        }
        let rest = text.split_at(4).1;
        if begins(text, b"get ") {
            let (key, n) = key_prefix(rest)?;
            Some((AskLine::Ask(key), 4 + n))
        } else {
            None
        }
    }

    fn read_line(line: &[u8]) -> Result<AskLine<K>, Why> {
        let (verb, rest) = cut(line, b' ');
        if verb == b"get".as_slice() {
            Ok(AskLine::Ask(only_key(rest)?))
        } else if verb == b"wait".as_slice() {
            let n = only_number::<K>(rest)?;
            Ok(AskLine::Wait { n })
        } else {
            Err(Why::Verb)
        }
    }

    fn waits(&self) -> bool {
        matches!(self, AskLine::Wait { .. })
    }
}

// Whether a text begins with these four bytes.
fn begins(text: &[u8], verb: &[u8]) -> bool
    requires { 4 ≤ length text.now }
    ensures { IsTrue result → take 4 text.now ≡ verb.now }
{
    text.split_at(4).0 == verb
}
