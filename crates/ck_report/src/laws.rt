//! Laws of reports, for callers that reason about what was read.
ghost use Rattle.std.specs.Prelude.{◌≡◌, ◌<◌, ◌^◌, ℕ, List, length};
ghost use Rattle.ck_report.specs.Reports.{Parts, Reads};

use ck_script::KeyWord;

/// A text has one reading at most: parts of which it is the report are the same parts. It has fewer than 2^64 bytes, as
/// each text in memory, since a decimal is defined up to 64 digits.
pub fn one_reading_law<K: KeyWord + Ord>()
    ensures { (text : List ℕ) (parts others : Parts K) → length text < 2 ^ 64
        → Reads K.is_key K.spelling K.cmp text parts → Reads K.is_key K.spelling K.cmp text others → parts ≡ others }
{}
