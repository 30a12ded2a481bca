//! The log of the answered updates. It exists in proofs alone, as a book of `logbook` that is begun and extended by exchanges of one shared
//! word. Versions of the map carry prefixes of it, which can be copied and compared.
//!
//! `LogEnd` alone extends it, and its exchanges always do: each link of the book names the pen that adds the next one, `LogEnd` has that pen,
//! and adding a link uses it up.
ghost use Rattle.std.specs.Prelude.{◌≡◌, ◌<◌, ◌≤◌, ◌^◌, ◌∷◌, ◌++◌, [], length, ◌↔◌, IsTrue};
ghost use Rattle.logbook.specs.Pages.{may_write};

use ck_history::{Key, LogEntry};
use logbook::{Gain, Offer, Pen, Plain, Play, Rule, Seen, Start, Word};
use std::marker::Model;
use std::sync::Wait;

/// A link of the book: an answered update, or none in the first link, and the key of the pen that adds the next link. No run makes one.
pub struct Link {
    pub entry: Option<LogEntry<Key>>,
    pub next: u64,
}

/// The rule of the book.
pub struct Grows;

impl Rule<Link, u64> for Grows {
    ghost use Rattle.std.specs.Prelude.{[]};
    ghost use base.Fml.{ftrue};
    ghost use Rattle.ck_snap.specs.Growing.{IsLogKept};

    ghost holds = { λ cells links. IsLogKept cells links };

    ghost first = { [] };

    ghost hinted = { λ n links. Unit {0} };

    ghost shows = { λ links. [] };

    ghost keeps = { λ names links. ftrue };

    ghost moves = { λ ask before after answer. Unit {0} };
}

/// No token trades anything for a link.
pub struct Nothing;

impl Gain<Link, u64> for Nothing {
    ghost use base.Fml.{ftrue};

    ghost after = { λ names about answer. ftrue };
}

/// The step that adds a cell.
struct Make;

impl Play<Link, u64> for Make {
    ghost use Rattle.ck_snap.specs.Growing.{MakesCell};

    ghost then = { MakesCell };
}

/// The step that adds the first link.
struct Begin;

impl Play<Link, u64> for Begin {
    ghost use Rattle.ck_snap.specs.Growing.{BeginsLog};

    ghost then = { BeginsLog };
}

/// The step that adds each further link.
struct Extend;

impl Play<Link, u64> for Extend {
    ghost use Rattle.ck_snap.specs.Growing.{Extends};

    ghost then = { Extends };
}

/// What a link is made of: its entry, and the pen that it names.
#[derive(Drop)]
struct Joint {
    entry: Option<LogEntry<Key>>,
    next: Pen,
}

/// How a joint asks for its link.
struct Joins;

impl Plain<Joint, Link, u64> for Joins {
    ghost use Rattle.std.specs.Prelude.{None};

    ghost ask = { λ joint. record { entry = joint.entry; next = joint.next.nib.key } };

    ghost state = { λ joint. None };
}

/// A step that adds no link asks for none.
struct Silent;

impl Plain<(), Link, u64> for Silent {
    ghost use Rattle.std.specs.Prelude.{None};

    ghost ask = { λ nothing. record { entry = None; next = 0 } };

    ghost state = { λ nothing. None };
}

/// The shared word.
#[derive(Drop)]
pub struct LogWord {
    word: Word<Link, u64, Grows>,
}

impl Model for LogWord {
    ghost use Rattle.logbook.specs.Pages.{Book};
    ghost use Rattle.std.specs.Prelude.{◌≡◌};
    ghost use Rattle.ck_snap.specs.Growing.{first_word};

    ghost Value = { Book };

    ghost view = { λ l. l.word.book };

    ghost invariant = { λ l. l.word ≡ first_word l.word.book };
}

/// A prefix of the log. It can be copied, and two prefixes of one log can be compared.
#[derive(Drop)]
pub struct Prefix {
    count: u64,
    seen: Seen<Link, u64, Grows>,
}

impl Model for Prefix {
    ghost use Rattle.std.specs.Prelude.{◌≡◌, ◌≤◌, ◌^◌, length};
    ghost use Rattle.ck_snap.specs.Growing.{LogPart, entries};

    ghost Value = { LogPart };

    ghost view = { λ p. record { book = p.seen.book; log = entries p.seen.log } };

    ghost invariant = { λ p. (p.count ≡ length (entries p.seen.log)) × (p.count ≤ 2 ^ 62) };
}

/// The end of the log: all of it, and the pen that its last link names. There is one.
#[derive(Drop)]
pub struct LogEnd {
    count: u64,
    seen: Seen<Link, u64, Grows>,
    pen: Pen,
}

impl Model for LogEnd {
    ghost use Rattle.ck_snap.specs.Growing.{LogPart, entries, IsLogEnd};

    ghost Value = { LogPart };

    ghost view = { λ e. record { book = e.seen.book; log = entries e.seen.log } };

    ghost invariant = { λ e. IsLogEnd e.count e.seen.book e.seen.log e.pen.book e.pen.nib };
}

impl LogWord {
    /// A new log, with no entry.
    pub fn new<R: Wait>(rt: &R) -> (LogWord, LogEnd)
        ensures { result.1 ≡ record { book = result.0; log = [] } }
    {
        let (seen, mut first, _second) = Seen::open(Start::alone(), 0, 0);
        let word = LogWord {
            word: Word::tracked(0, &mut first),
        };
        let end = word.begin(rt, &seen);
        (word, end)
    }

    /// A pen of its own cell.
    fn pen(&self, seen: &Seen<Link, u64, Grows>) -> Pen
        requires { seen.now.book ≡ self.now }
        ensures book { result.book ≡ self.now }
        ensures right { result.nib.right ≡ may_write }
    {
        let mut known = seen.again();
        let mut offer: Offer<Link, u64, Grows, Nothing> = known.plain::<Nothing, (), Silent>(&());
        let mut pen = known.no_pen();
        self.word
            .compare_exchange::<Make, Nothing>(1, 1, &mut known, &mut offer, &mut pen);
        let _cell: Word<Link, u64, Grows> = Word::tracked(0, &mut pen);
        pen
    }

    /// Begins the log. Only who has made the word can, so the first exchange does.
    fn begin<R: Wait>(&self, rt: &R, seen: &Seen<Link, u64, Grows>) -> LogEnd
        requires { seen.now.book ≡ self.now }
        ensures { result ≡ record { book = self.now; log = [] } }
    {
        for _ in rt.forever() {
            let first = Joint {
                entry: None,
                next: self.pen(seen),
            };
            let mut known = seen.again();
            let mut offer: Offer<Link, u64, Grows, Nothing> = known.plain::<Nothing, Joint, Joins>(
                &first,
            );
            let mut none = known.no_pen();
            let found = self
                .word
                .compare_exchange::<Begin, Nothing>(0, 1, &mut known, &mut offer, &mut none);
            if found == 0 {
                let Joint { entry: _, next } = first;
                return LogEnd {
                    count: 0,
                    seen: known,
                    pen: next,
                };
            }
        }
        unreachable!()
    }
}

impl Prefix {
    /// A copy of it. Only proofs see what is copied, so it costs nothing but a number.
    pub fn again(&self) -> Prefix
        ensures { result ≡ self.now }
    {
        Prefix {
            count: self.count,
            seen: self.seen.again(),
        }
    }

    /// How many entries it has.
    pub fn count(&self) -> u64
        ensures count { result ≡ length self.now.log }
        ensures small { result ≤ 2 ^ 62 }
    {
        self.count
    }

    /// Whether both have as many entries, and then they are one prefix.
    pub fn is_as_long(&self, other: &Prefix) -> bool
        requires { self.now.book ≡ other.now.book }
        ensures when { IsTrue result ↔ length self.now.log ≡ length other.now.log }
        ensures same { IsTrue result → self.now ≡ other.now }
    {
        if self.count != other.count {
            return false;
        }
        let mut both = self.seen.again();
        both.learn(&other.seen);
        true
    }
}

impl LogEnd {
    /// The whole log.
    pub fn prefix(&self) -> Prefix
        ensures { result ≡ self.now }
    {
        Prefix {
            count: self.count,
            seen: self.seen.again(),
        }
    }

    /// Adds the entry.
    pub fn add(&mut self, word: &LogWord, entry: &LogEntry<Key>)
        requires room { length self.old.log < 2 ^ 62 }
        requires book { self.old.book ≡ word.now }
        ensures { self.new ≡ record self.old { log = self.old.log ++ entry.now ∷ [] } }
    {
        // The next pen comes first: the link has to name it.
        let joint = Joint {
            entry: Some(*entry),
            next: word.pen(&self.seen),
        };
        let mut offer: Offer<Link, u64, Grows, Nothing> = self
            .seen
            .plain::<Nothing, Joint, Joins>(&joint);
        word.word
            .compare_exchange::<Extend, Nothing>(1, 1, &mut self.seen, &mut offer, &mut self.pen);
        let Joint { entry: _, next } = joint;
        self.pen = next;
        self.count += 1;
    }
}
