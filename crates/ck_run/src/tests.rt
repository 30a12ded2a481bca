ghost use Rattle.std.specs.Prelude.{◌≡◌, ◌<◌, length};

use crate::{Continues, Opening, Program, Token, Words};
use std::marker::Brand;
use std::test::Fail;
use std::thread::join_mut;

// Tokens that may do anything.
struct Anything;

impl Program<u64> for Anything {
    ghost follows = { λ origin number entries. Unit {0} };
}

ghost use Rattle.ck_run.specs.Tokens.{table};

fn store_and_load(words: &Words<u64, Anything>, token: &mut Token<u64>) -> u64
    requires table { table token.old ≡ words.now }
    requires long { 1 < length words.now.origin.words }
    ensures { table token.new ≡ table token.old }
{
    words.store::<Brand>(token, 1, 5);
    words.load::<Continues>(token, 1)
}

fn exchange_twice(words: &Words<u64, Anything>, token: &mut Token<u64>) -> (u64, u64, u64)
    requires table { table token.old ≡ words.now }
    requires long { 2 < length words.now.origin.words }
    ensures { table token.new ≡ table token.old }
{
    let missed = words.exchange::<Brand>(token, 2, 4, 6);
    let met = words.exchange::<Continues>(token, 2, 3, 8);
    (
        missed,
        met,
        words.load_handing::<Continues, Brand>(token, 2),
    )
}

// What a structure makes of a token.
#[derive(Drop)]
struct End {
    token: Token<u64>,
    number: u64,
}

fn end_of(number: u64, token: Token<u64>) -> End
    ensures { result ≡ record { token = token; number = number } }
{
    End { token, number }
}

fn token_of(end: End) -> Token<u64>
    ensures { result ≡ end.token }
{
    let End { token, number: _ } = end;
    token
}

#[test]
fn tokens_are_given_out_in_order_and_taken_in(rt: HostRuntime) -> Result<(), Fail> {
    let opening = Opening {
        words: vec![in rt.alloc(); 3u64; 1]?,
        tokens: 3,
        config: 7u64,
    };
    let mut ends = Vec::with_capacity(rt.alloc(), 2)?;
    let (words, mut first, config) = Words::<u64, Anything>::new(rt.alloc(), opening)?;
    words.part_all(&mut first, &mut ends, 2, end_of);
    assert_eq!(rt; (ends[0].number, ends[1].number), (1, 2));
    words.join_all(&mut first, ends, token_of);
    let left = words.close(first, 0);
    assert_eq!(rt; (left.as_slice(), config), ([3].as_slice(), 7));
    Ok(())
}

#[test]
fn two_threads_step_and_one_closes(rt: HostRuntime) -> Result<(), Fail> {
    let opening = Opening {
        words: vec![in rt.alloc(); 3u64; 3]?,
        tokens: 2,
        config: 7u64,
    };
    let (words, mut first, _config) = Words::new(rt.alloc(), opening)?;
    let mut second = words.part(&mut first);
    let (loaded, found) = join_mut(
        &rt,
        &mut || store_and_load(&words, &mut first),
        &mut || exchange_twice(&words, &mut second),
    );
    assert_eq!(rt; loaded, 5);
    assert_eq!(rt; found, (3, 3, 8));
    words.join(&mut first, second);
    let left = words.close(first, 1);
    assert_eq!(rt; left.as_slice(), [5, 8].as_slice());
    Ok(())
}
