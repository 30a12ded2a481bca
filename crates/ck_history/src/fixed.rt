ghost use Rattle.std.specs.Prelude.{◌≡◌, [], IfOk};
ghost use Rattle.ck_history.specs.Map.{IsMap, find, step};
ghost use Rattle.ck_history.specs.Book.{BookView};

use crate::pairs;
use crate::update::{Reply, Update};
use std::alloc::{AllocError, Global};
use std::marker::Model;

/// A `Book` that takes the memory for all pairs that it may have when it is made, so that no update ever asks for any.
#[derive(Debug, Drop)]
pub struct FixedBook<K: Ord + Copy> {
    most: u64,
    pairs: Vec<(K, u64)>,
}

impl<K: Ord + Copy> Model for FixedBook<K> {
    ghost use Rattle.ck_history.specs.Book.{BookView};
    ghost use Rattle.ck_history.specs.Map.{IsMap};
    ghost use Rattle.ck_history.specs.Room.{HasRoom};

    ghost Value = { BookView K };

    ghost view = { λ b. record { most = b.most; pairs = b.pairs.items } };

    ghost invariant = { λ b. IsMap K.cmp b.pairs.items × HasRoom b.most b.pairs };
}

impl<K: Ord + Copy> FixedBook<K> {
    /// The empty map of at most `most` pairs.
    pub fn new(alloc: Global, most: u64) -> Result<FixedBook<K>, AllocError>
        ensures { IfOk result (λ b. b ≡ record { most = most; pairs = [] }) }
    {
        Ok(FixedBook {
            most,
            pairs: Vec::with_capacity(alloc, most as usize)?,
        })
    }

    /// The value beside the key.
    pub fn find(&self, key: &K) -> Option<u64>
        ensures { result ≡ find K.cmp self.now.pairs key.now }
    {
        pairs::find(&self.pairs, key)
    }

    /// The pairs, by ascending key.
    pub fn pairs(&self) -> &[(K, u64)]
        ensures all { result.now ≡ self.now.pairs }
        ensures ascending { IsMap K.cmp self.now.pairs }
    {
        &self.pairs
    }

    /// The reply that the update would get.
    pub fn reply(&self, u: &Update<K>) -> Reply
        ensures { result ≡ (step K.cmp self.now.most self.now.pairs u.now).1 }
    {
        let absent = if (self.pairs.len() as u64) < self.most {
            Reply::Fresh
        } else {
            Reply::Full
        };
        match *u {
            Update::Set(key, _) => self.find(&key).map_or(absent, Reply::Was),
            Update::Put(key, _) => self.find(&key).map_or(absent, Reply::Has),
            Update::Del(key) => self.find(&key).map_or(Reply::Missing, Reply::Was),
            Update::Tidy => Reply::Tidied,
        }
    }

    /// Makes one update, and answers its reply.
    pub fn apply(&mut self, u: Update<K>) -> Reply
        ensures reply { result ≡ (step K.cmp self.old.most self.old.pairs u).1 }
        ensures map { self.new ≡ record self.old { pairs = (step K.cmp self.old.most self.old.pairs u).0 } }
    {
        let made = match u {
            Update::Set(key, value) => pairs::set(&mut self.pairs, self.most, key, value),
            Update::Put(key, value) => pairs::put(&mut self.pairs, self.most, key, value),
            Update::Del(key) => Ok(pairs::remove(&mut self.pairs, &key)),
            Update::Tidy => Ok(Reply::Tidied),
        };
        made.unwrap()
    }
}

#[cfg(test)]
mod tests {
    use super::*;
    use std::test::Fail;

    #[test]
    fn has_room_for_its_pairs(rt: HostRuntime) -> Result<(), Fail> {
        use Reply::{Fresh, Full, Has, Missing, Was};
        use Update::{Del, Put, Set};
        let cases = [
            (Set(3, 8), Fresh),
            (Put(3, 9), Has(8)),
            (Set(4, 1), Full),
            (Del(4), Missing),
            (Del(3), Was(8)),
            (Put(4, 2), Fresh),
        ];
        let mut book: FixedBook<u64> = FixedBook::new(rt.alloc(), 1)?;
        for (update, reply) in cases {
            assert_eq!(rt; book.reply(&update), reply);
            assert_eq!(rt; book.apply(update), reply);
        }
        assert_eq!(rt; book.pairs(), [(4, 2)].as_slice());
        assert_eq!(rt; book.find(&4), Some(2));
        Ok(())
    }
}
