//! What a line is kept as: its kind, a number and a rest.
ghost use Rattle.std.specs.Prelude.{◌≡◌, ◌<◌};

use crate::line::{AskLine, UpLine};
use ck_history::{Edit, Key, Update};

/// A key or a query that is kept as a number and a rest.
pub trait CompactKey: Copy {
    ghost use Rattle.std.specs.Prelude.{◌≡◌, ℕ};

    /// What the number doesn't tell.
    type Rest: Copy + Drop + Send + Sync;

    /// What may be kept of a key.
    ghost is_kept: { ℕ → Self.Rest → Type 0 };

    /// The key of which this is kept.
    ghost key_of: { ℕ → Self.Rest → Self };

    /// What is kept of it.
    fn split(&self) -> (u128, Self::Rest)
        ensures kept { is_kept result.0 result.1 }
        ensures key { key_of result.0 result.1 ≡ self.now };

    /// The key of which this is kept.
    fn join(number: u128, rest: Self::Rest) -> Self
        requires { is_kept number rest }
        ensures { result ≡ key_of number rest };

    /// A rest for a line that has no key. It may be any.
    fn no_rest() -> Self::Rest;
}

/// An update that is kept as its kind, a number and a rest.
pub trait CompactCall: Copy {
    ghost use Rattle.std.specs.Prelude.{◌≡◌, ◌<◌, ℕ};

    /// What kind and number don't tell.
    type Rest: Copy + Drop + Send + Sync;

    /// What may be kept of an update.
    ghost is_kept: { ℕ → ℕ → Self.Rest → Type 0 };

    /// The update of which this is kept.
    ghost call_of: { ℕ → ℕ → Self.Rest → Self };

    /// What is kept of it.
    fn split(&self) -> (u8, u128, Self::Rest)
        ensures kind { result.0 < 127 }
        ensures kept { is_kept result.0 result.1 result.2 }
        ensures call { call_of result.0 result.1 result.2 ≡ self.now };

    /// The update of which this is kept.
    fn join(kind: u8, number: u128, rest: Self::Rest) -> Self
        requires { is_kept kind number rest }
        ensures { result ≡ call_of kind number rest };

    /// A rest for a line that is no update. It may be any.
    fn no_rest() -> Self::Rest;
}

/// What a line says that is kept as its kind, a number and a rest.
pub trait CompactLine: Copy {
    ghost use Rattle.std.specs.Prelude.{◌≡◌, ◌<◌, ℕ};

    /// What kind and number don't tell.
    type Rest: Copy + Drop + Send + Sync;

    /// What may be kept of a line.
    ghost is_kept: { ℕ → ℕ → Self.Rest → Type 0 };

    /// What the line says of which this is kept.
    ghost line_of: { ℕ → ℕ → Self.Rest → Self };

    /// What is kept of it.
    fn split(&self) -> (u8, u128, Self::Rest)
        ensures kind { result.0 < 128 }
        ensures kept { is_kept result.0 result.1 result.2 }
        ensures line { line_of result.0 result.1 result.2 ≡ self.now };

    /// What the line says of which this is kept.
    fn join(kind: u8, number: u128, rest: Self::Rest) -> Self
        requires { is_kept kind number rest }
        ensures { result ≡ line_of kind number rest };
}

impl CompactKey for Key {
    ghost use Rattle.ck_history.specs.Key.{IsKey};

    type Rest = ();

    ghost is_kept = { λ number _. IsKey number };

    ghost key_of = { λ number _. number };

    fn split(&self) -> (u128, ()) {
        (self.get(), ())
    }

    fn join(number: u128, _: ()) -> Key {
        Key::new(number).unwrap()
    }

    fn no_rest() {}
}

impl CompactKey for () {
    type Rest = ();

    ghost is_kept = { λ _ _. Unit {0} };

    ghost key_of = { λ _ _. tt };

    fn split(&self) -> (u128, ()) {
        (0, ())
    }

    fn join(_: u128, _: ()) {}

    fn no_rest() {}
}

impl<K: CompactKey> CompactCall for Update<K> {
    ghost use Rattle.ck_script.specs.Compact.{IsKeptUpdate, update_of};

    type Rest = (K::Rest, u64);

    ghost is_kept = { IsKeptUpdate K.is_kept };

    ghost call_of = { update_of K.key_of };

    fn split(&self) -> (u8, u128, (K::Rest, u64)) {
        match *self {
            Update::Set(key, value) => {
                let (number, rest) = key.split();
                (0, number, (rest, value))
            }
            Update::Put(key, value) => {
                let (number, rest) = key.split();
                (1, number, (rest, value))
            }
            Update::Del(key) => {
                let (number, rest) = key.split();
                (2, number, (rest, 0))
            }
            Update::Tidy => (3, 0, (K::no_rest(), 0)),
        }
    }

    fn join(kind: u8, number: u128, rest: (K::Rest, u64)) -> Update<K> {
        match kind {
            0 => Update::Set(K::join(number, rest.0), rest.1),
            1 => Update::Put(K::join(number, rest.0), rest.1),
            2 => Update::Del(K::join(number, rest.0)),
            _ => Update::Tidy,
        }
    }

    fn no_rest() -> (K::Rest, u64) {
        (K::no_rest(), 0)
    }
}

impl CompactCall for Edit {
    ghost use Rattle.ck_script.specs.Compact.{IsKeptEdit, edit_of};

    type Rest = ();

    ghost is_kept = { λ kind number _. IsKeptEdit kind number };

    ghost call_of = { λ kind number _. edit_of kind number };

    fn split(&self) -> (u8, u128, ()) {
        match *self {
            Edit::Add(member) => (0, member as u128, ()),
            Edit::Drop(member) => (1, member as u128, ()),
            Edit::Commit => (2, 0, ()),
        }
    }

    fn join(kind: u8, number: u128, _: ()) -> Edit {
        match kind {
            0 => Edit::Add(number as u64),
            1 => Edit::Drop(number as u64),
            _ => Edit::Commit,
        }
    }

    fn no_rest() {}
}

/// How many numbers a word has.
const WORD: u128 = 1 << 64;

impl<C: CompactCall> CompactLine for UpLine<C> {
    ghost use Rattle.ck_script.specs.Compact.{IsKeptUpLine, up_line_of};

    type Rest = C::Rest;

    ghost is_kept = { IsKeptUpLine C.is_kept };

    ghost line_of = { up_line_of C.call_of };

    fn split(&self) -> (u8, u128, C::Rest) {
        match self {
            UpLine::Hold { file, n } => (0, *file as u128 * WORD + *n as u128, C::no_rest()),
            UpLine::Call(call) => {
                let (kind, number, rest) = call.split();
                (kind + 1, number, rest)
            }
        }
    }

    fn join(kind: u8, number: u128, rest: C::Rest) -> UpLine<C> {
        if kind == 0 {
            UpLine::Hold {
                file: (number / WORD) as u64,
                n: (number % WORD) as u64,
            }
        } else {
            UpLine::Call(C::join(kind - 1, number, rest))
        }
    }
}

impl<A: CompactKey> CompactLine for AskLine<A> {
    ghost use Rattle.ck_script.specs.Compact.{IsKeptAskLine, ask_line_of};

    type Rest = A::Rest;

    ghost is_kept = { IsKeptAskLine A.is_kept };

    ghost line_of = { ask_line_of A.key_of };

    fn split(&self) -> (u8, u128, A::Rest) {
        match self {
            AskLine::Wait { n } => (0, *n as u128, A::no_rest()),
            AskLine::Ask(ask) => {
                let (number, rest) = ask.split();
                (1, number, rest)
            }
        }
    }

    fn join(kind: u8, number: u128, rest: A::Rest) -> AskLine<A> {
        if kind == 0 {
            AskLine::Wait { n: number as u64 }
        } else {
            AskLine::Ask(A::join(number, rest))
        }
    }
}
