ghost use Rattle.std.specs.Prelude.{◌≡◌, ℕ, [], IfOk, OnOk, OnErr};
ghost use Rattle.ck_history.specs.Map.{IsMap, find, step};
ghost use Rattle.ck_history.specs.Book.{BookView};
ghost use Rattle.ck_history.specs.declared.update.Reply.TheVariants.{Fresh};

use crate::pairs;
use crate::update::{Reply, Update};
use std::alloc::{AllocError, Global};
use std::marker::Model;

/// A map of at most `most` pairs, kept by one thread as a sorted list: the plain body of the map's definition.
/// A look-up takes time in the logarithm of the number of pairs, a fresh key or a removal in their number.
#[derive(Debug, Drop)]
pub struct Book<K: Ord + Copy> {
    most: u64,
    pairs: Vec<(K, u64)>,
}

impl<K: Ord + Copy> Model for Book<K> {
    ghost use Rattle.ck_history.specs.Book.{BookView};
    ghost use Rattle.ck_history.specs.Map.{IsMap};

    ghost Value = { BookView K };

    ghost view = { λ b. record { most = b.most; pairs = b.pairs.items } };

    ghost invariant = { λ b. IsMap K.cmp b.pairs.items };
}

impl<K: Ord + Copy> Book<K> {
    /// The empty map of at most `most` pairs. It takes no memory yet.
    pub fn new(alloc: Global, most: u64) -> Book<K>
        ensures { result ≡ record { most = most; pairs = [] } }
    {
        Book {
            most,
            pairs: Vec::new(alloc),
        }
    }

    /// The value beside the key.
    pub fn find(&self, key: &K) -> Option<u64>
        ensures { result ≡ find K.cmp self.now.pairs key.now }
    {
        pairs::find(&self.pairs, key)
    }

    /// The pairs, by ascending key.
    pub fn pairs(&self) -> &[(K, u64)]
        ensures all { result.now ≡ self.now.pairs }
        ensures ascending { IsMap K.cmp self.now.pairs }
    {
        &self.pairs
    }

    /// Makes one update, and answers its reply. An `AllocError` comes only where a pair would be added, and changes nothing.
    pub fn apply(&mut self, u: Update<K>) -> Result<Reply, AllocError>
        ensures reply { IfOk result (λ reply. reply ≡ (step K.cmp self.old.most self.old.pairs u).1) }
        ensures ok { OnOk result (self.new ≡ record self.old { pairs = (step K.cmp self.old.most self.old.pairs u).0 }) }
        ensures err { OnErr result (self.new ≡ self.old) }
        ensures memory { OnErr result ((step K.cmp self.old.most self.old.pairs u).1 ≡ Fresh) }
    {
        match u {
            Update::Set(key, value) => pairs::set(&mut self.pairs, self.most, key, value),
            Update::Put(key, value) => pairs::put(&mut self.pairs, self.most, key, value),
            Update::Del(key) => Ok(pairs::remove(&mut self.pairs, &key)),
            Update::Tidy => Ok(Reply::Tidied),
        }
    }
}

#[cfg(test)]
mod tests {
    use super::*;
    use std::test::Fail;

    // each case: the most pairs, updates, their replies, the pairs at the end, and a look-up of 3
    #[test]
    fn answers_as_a_map_does(rt: HostRuntime) -> Result<(), Fail> {
        use Reply::{Fresh, Full, Has, Missing, Tidied, Was};
        use Update::{Del, Put, Set, Tidy};
        let cases = [
            (
                9,
                [Put(1, 5), Put(1, 6), Tidy],
                [Fresh, Has(5), Tidied],
                [(1, 5)].as_slice(),
                None,
            ),
            (
                9,
                [Del(9), Set(9, 1), Set(9, 1)],
                [Missing, Fresh, Was(1)],
                [(9, 1)].as_slice(),
                None,
            ),
            (
                2,
                [Set(7, 1), Put(3, 2), Set(5, 3)],
                [Fresh, Fresh, Full],
                [(3, 2), (7, 1)].as_slice(),
                Some(2),
            ),
            (
                1,
                [Set(3, 8), Set(3, 9), Del(3)],
                [Fresh, Was(8), Was(9)],
                [].as_slice(),
                None,
            ),
        ];
        for (most, updates, replies, pairs, value) in cases {
            let mut book: Book<u64> = Book::new(rt.alloc(), most);
            for (update, reply) in updates.into_iter().zip(replies) {
                assert_eq!(rt; book.apply(update)?, reply);
            }
            assert_eq!(rt; book.pairs(), pairs);
            assert_eq!(rt; book.find(&3), value);
        }
        Ok(())
    }
}
