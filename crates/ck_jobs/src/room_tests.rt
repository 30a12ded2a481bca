//! A test of the room that a job asks for.
use crate::room::pairs_of;
use ck_history::{Key, Update};
use ck_script::{Lines, Numbered, UpLine};
use std::test::Fail;

#[test]
fn keys_that_come_and_go_want_room_for_those_at_once(rt: HostRuntime) -> Result<(), Fail> {
    let mut lines = Lines::new(rt.alloc());
    for i in 1..70_000u64 {
        if let Some(key) = Key::new(u128::from(i) << 64) {
            lines.push(Numbered {
                line: 2 * i - 1,
                what: UpLine::Call(Update::Set(key, i)),
            })?;
            lines.push(Numbered {
                line: 2 * i,
                what: UpLine::Call(Update::Del(key)),
            })?;
        }
    }
    assert_eq!(rt; pairs_of(rt.alloc(), &lines)?, 1);
    Ok(())
}
