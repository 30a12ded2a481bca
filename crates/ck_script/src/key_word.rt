ghost use Rattle.std.specs.Prelude.{◌≡◌, ◌++◌, ◌+◌, ◌<◌, ◌≤◌, length, take, drop, IfSome, MatchResult, OnOk, OnErr};

use crate::fault::Why;
use ck_history::Key;
use ck_text::{number_prefix, prepend_wide_number, print_number, read_decimal};
use std::alloc::AllocError;

/// A key that scripts and reports spell as one word.
pub trait KeyWord: Copy {
    /// Which values are keys.
    ghost is_key: { Self → Type 0 };

    /// The one word that spells a key: bytes with no space and no line feed.
    ghost spelling: { Self → List ℕ };

    /// What is wrong with a word that spells no key.
    ghost is_fault: { List ℕ → Why → Type 0 };

    ghost use Rattle.std.specs.Prelude.{◌≡◌, ◌⊎◌, ℕ, List};
    ghost use Rattle.ck_script.specs.declared.fault.Why.{Why};
    ghost use Rattle.ck_script.specs.declared.fault.Why.TheVariants.{Number, Key};
    ghost use Rattle.ck_text.specs.Words.{IsWord};

    /// The key that the word spells, or what is wrong with the word.
    fn read_word(text: &[u8]) -> Result<Self, Why>
        ensures { MatchResult result (λ k. is_key k × (text.now ≡ spelling k)) (λ why. is_fault text.now why) };

    /// The key that a text begins with, and how many bytes spell it. Something stands after them. None says nothing.
    fn read_prefix(text: &[u8]) -> Option<(Self, usize)>
        ensures { IfSome result (λ x. is_key x.0 × (x.1 < length text.now) × (take x.1 text.now ≡ spelling x.0)) };

    /// Writes the key's word at the end. An `AllocError` leaves the text as it was.
    fn print_word(&self, out: &mut Vec<u8>) -> Result<(), AllocError>
        ensures ok { OnOk result (out.new.items ≡ out.old.items ++ spelling self.now) }
        ensures err { OnErr result (out.new.items ≡ out.old.items) };

    /// Writes the key's word, of at most 48 bytes, so that it ends at `end`, and returns where it starts.
    fn prepend_word(&self, text: &mut [u8], end: usize) -> usize
        requires room { 48 ≤ end }
        requires within { end ≤ length text.old }
        ensures start { result + length (spelling self.now) ≡ end }
        ensures short { end ≤ result + 48 }
        ensures written { drop result text.new ≡ spelling self.now ++ drop end text.old };

    /// No two keys have one spelling.
    ghost one_key: { (j k : Self) → is_key j → is_key k → spelling j ≡ spelling k → j ≡ k };

    /// A word that spells a key has no fault.
    ghost faultless: { (k : Self) (why : Why) → is_key k → is_fault (spelling k) why → ⊥ };

    /// A key's spelling is one word.
    ghost one_word: { (k : Self) → is_key k → IsWord (spelling k) };

    /// A word that spells no key is no number, or names no key.
    ghost key_fault: { (word : List ℕ) (why : Why) → is_fault word why → (why ≡ Number) ⊎ (why ≡ Key) };
}

impl KeyWord for Key {
    ghost use Rattle.std.specs.Prelude.{decimal};
    ghost use Rattle.ck_history.specs.Key.{IsKey};
    ghost use Rattle.ck_script.specs.Keys.{IsTableKeyFault, one_table_key, table_key_faultless, table_key_one_word, table_key_fault};

    ghost is_key = { IsKey };

    ghost spelling = { decimal };

    ghost is_fault = { IsTableKeyFault };

    ghost one_key = { one_table_key };

    ghost faultless = { table_key_faultless };

    ghost one_word = { table_key_one_word };

    ghost key_fault = { table_key_fault };

    fn read_word(text: &[u8]) -> Result<Key, Why> {
        match read_decimal(text, u128::MAX) {
            Some(n) => Key::new(n).ok_or(Why::Key),
            None => Err(Why::Number),
        }
    }

    fn read_prefix(text: &[u8]) -> Option<(Key, usize)> {
        let (n, count) = number_prefix(text)?;
        let key = Key::new(n as u128)?;
        Some((key, count))
    }

    fn print_word(&self, out: &mut Vec<u8>) -> Result<(), AllocError> {
        print_number(out, self.get())
    }

    fn prepend_word(&self, text: &mut [u8], end: usize) -> usize {
        prepend_wide_number(text, end, self.get())
    }
}
