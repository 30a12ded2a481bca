//! The generated files.
ghost use Rattle.std.specs.Prelude.{◌≡◌, ◌≤◌, ◌++◌, ◌∷◌, [], IfOk, OnOk, codes, decimal};
ghost use Rattle.ck_text.specs.Words.{line};
ghost use Rattle.ck_gen.specs.Generated.{drawn_key, drawn_update, update_line, query_line, update_text, query_text};

use ck_history::{Key, Update};
use ck_probe::mix;
use ck_script::KeyWord;
use ck_text::print_number;
use std::alloc::{AllocError, Global};

/// How many keys the lines are about: 1 to this one.
const KEYS: u64 = 50_000;

/// The update file of this seed, with so many lines: `set KEY VALUE`, `put KEY VALUE` or `del KEY`, with keys from 1 to
/// 50,000 and values of 32 bits.
pub fn updates(alloc: Global, seed: u64, lines: u64) -> Result<Vec<u8>, AllocError>
    requires { lines ≤ 999999 }
    ensures { IfOk result (λ text. text.items ≡ update_text seed lines) }
{
    let mut out = Vec::new(alloc);
    for i in 0..lines {
        print_update(&mut out, &draw_update(mix(i + 1, seed)))?;
    }
    Ok(out)
}

/// The query file of this seed, with so many queries: `wait LINES`, by which each of them is answered after all updates, and
/// then the lines `get KEY`.
pub fn queries(alloc: Global, seed: u64, lines: u64) -> Result<Vec<u8>, AllocError>
    requires { lines ≤ 999999 }
    ensures { IfOk result (λ text. text.items ≡ query_text seed lines) }
{
    let mut out = Vec::new(alloc);
    out.extend_from_slice(b"wait ")?;
    print_number(&mut out, lines as u128)?;
    out.push(b'\n')?;
    for i in 0..lines {
        print_query(&mut out, &draw_key(mix(i + 1, seed ^ 1)))?;
    }
    Ok(out)
}

// The key of a line with this hash.
fn draw_key(hash: u64) -> Key
    ensures { result ≡ drawn_key hash }
{
    match Key::new((1 + hash % KEYS) as u128) {
        Some(key) => key,
        None => unreachable!(),
    }
}

// The update of a line with this hash.
fn draw_update(hash: u64) -> Update<Key>
    ensures { result ≡ drawn_update hash }
{
    let key = draw_key(hash);
    let value = hash >> 32;
    let kind = (hash >> 20) % 8;
    if kind < 4 {
        Update::Set(key, value)
    } else if kind < 6 {
        Update::Put(key, value)
    } else {
        Update::Del(key)
    }
}

// The line of an update.
fn print_update(out: &mut Vec<u8>, update: &Update<Key>) -> Result<(), AllocError>
    ensures { OnOk result (out.new.items ≡ out.old.items ++ update_line update.now) }
{
    match update {
        Update::Set(key, value) => print_pair(out, b"set ", key, *value),
        Update::Put(key, value) => print_pair(out, b"put ", key, *value),
        Update::Del(key) => print_key(out, b"del ", key),
        Update::Tidy => out.extend_from_slice(b"tidy\n"),
    }
}

// The line of a query.
fn print_query(out: &mut Vec<u8>, key: &Key) -> Result<(), AllocError>
    ensures { OnOk result (out.new.items ≡ out.old.items ++ query_line key.now) }
{
    print_key(out, b"get ", key)
}

// A verb and a key.
fn print_key(out: &mut Vec<u8>, verb: &[u8], key: &Key) -> Result<(), AllocError>
    ensures { OnOk result (out.new.items ≡ out.old.items ++ (verb.now ++ (decimal key.now ++ 10 ∷ []))) }
{
    out.extend_from_slice(verb)?;
    key.print_word(out)?;
    out.push(b'\n')?;
    Ok(())
}

// A verb, a key and a value.
fn print_pair(out: &mut Vec<u8>, verb: &[u8], key: &Key, value: u64) -> Result<(), AllocError>
    ensures { OnOk result (out.new.items ≡ out.old.items ++ (verb.now ++ (decimal key.now ++ 32 ∷ (decimal value ++ 10 ∷ [])))) }
{
    out.extend_from_slice(verb)?;
    key.print_word(out)?;
    out.push(b' ')?;
    print_number(out, value as u128)?;
    out.push(b'\n')?;
    Ok(())
}
