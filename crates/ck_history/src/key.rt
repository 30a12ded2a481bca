ghost use Rattle.std.specs.Prelude.{◌≡◌, ◌<◌, ◌^◌, ◌-◌, ◌/◌, ◌%◌, nat_eq, refl};
ghost use Rattle.std.specs.Option.{SomeIff};
ghost use Rattle.std.specs.Ordering.{nat_cmp, as_partial_cmp};
ghost use Rattle.std.specs.Cmp.{partial_equiv_from_equiv, nat_eq_equiv, nat_cmp_total, unsigned_ties, unsigned_po};
ghost use Rattle.ck_history.specs.Key.{IsKey};

use std::cmp::Ordering;
use std::marker::Model;

/// A table's key: a number of 128 bits other than 0 and 2^128 - 1. `ck_ht` too reserves 0 and the greatest number, of its keys of 64 bits.
// Two words and no `u128`, which would make every record that has a key start at a multiple of 16 bytes.
#[derive(Clone, Copy, Debug)]
pub struct Key {
    high: u64,
    low: u64,
}

impl Model for Key {
    ghost use Rattle.std.specs.Prelude.{ℕ, ◌/◌, ◌%◌, ◌^◌};
    ghost use Rattle.ck_history.specs.Key.{number_of_words, AreKeyWords};
    ghost use Rattle.ck_history.specs.Laws.{high_word, low_word};

    ghost Value = { ℕ };

    ghost view = { λ key. number_of_words key.high key.low };

    ghost invariant = { λ key. AreKeyWords key.high key.low };

    ghost inverse = { λ n. record { high = n / 2 ^ 64; low = n % 2 ^ 64 } };

    ghost inverse_ok = { λ key held i. record {
      high = high_word key.high key.low held.word i;
      low = low_word key.high key.low held.word i;
    } };
}

impl Key {
    /// The key of this number. None exactly for 0 and 2^128 - 1.
    pub fn new(n: u128) -> Option<Key>
        ensures { SomeIff result (IsKey n) n }
    {
        if n == 0 || n == u128::MAX {
            None
        } else {
            Some(Key {
                high: (n / WORD) as u64,
                low: (n % WORD) as u64,
            })
        }
    }

    /// Its number.
    pub fn get(&self) -> u128
        ensures value { result ≡ self.now }
        ensures key { IsKey self.now }
    {
        self.high as u128 * WORD + self.low as u128
    }
}

// How many numbers a word has.
const WORD: u128 = 1 << 64;

impl PartialEq for Key {
    ghost eq = { nat_eq };

    ghost laws = { partial_equiv_from_equiv nat_eq_equiv };

    fn eq(&self, other: &Key) -> bool {
        self.low == other.low && self.high == other.high
    }
}

impl Eq for Key {
    ghost laws = { nat_eq_equiv };
}

/// Keys are ordered by their numbers.
impl PartialOrd for Key {
    ghost partial_cmp = { as_partial_cmp nat_cmp };

    ghost laws = { unsigned_po };

    fn partial_cmp(&self, other: &Key) -> Option<Ordering> {
        Some(self.cmp(other))
    }
}

impl Ord for Key {
    ghost cmp = { nat_cmp };

    ghost total = { nat_cmp_total };

    ghost matches_partial_cmp = { λ x y. refl };

    ghost matches_eq = { unsigned_ties };

    fn cmp(&self, other: &Key) -> Ordering {
        self.high.cmp(&other.high).then(self.low.cmp(&other.low))
    }
}

#[cfg(test)]
mod tests {
    use super::*;
    use std::test::Fail;

    #[test]
    fn takes_all_but_the_reserved_numbers(rt: HostRuntime) {
        let cases = [
            (0, None),
            (1, Some(1)),
            (u128::MAX - 1, Some(340282366920938463463374607431768211454)),
            (1 << 64, Some(18446744073709551616)),
            (u128::MAX, None),
        ];
        for (number, value) in cases {
            assert_eq!(rt; Key::new(number).map(|key| key.get()), value);
        }
    }

    #[test]
    fn keys_are_ordered_by_their_numbers(rt: HostRuntime) -> Result<(), Fail> {
        let word = 1 << 64;
        let cases = [
            (1, 2, Ordering::Less),
            (2, 2, Ordering::Equal),
            (word + 1, 2, Ordering::Greater),
            (word + 1, 1, Ordering::Greater),
            (word + 2, 2 * word + 1, Ordering::Less),
        ];
        for (a, b, order) in cases {
            let a = Key::new(a).ok_or("key")?;
            let b = Key::new(b).ok_or("key")?;
            assert_eq!(rt; a.cmp(&b), order);
            assert_eq!(rt; a == b, order == Ordering::Equal);
        }
        Ok(())
    }
}
