//! Numbers and bytes that are written. Most texts are written from their end to their start, so that no number's length is
//! asked before it is written.
ghost use Rattle.std.specs.Prelude.{◌≡◌, ◌+◌, ◌≤◌, ◌<◌, ◌++◌, length, drop, decimal, OnOk, OnErr};

use itoa::{Buffer, write_digits};
use std::alloc::AllocError;

/// Writes these bytes so that they end at `end`, and returns where they start.
#[inline(always)]
pub fn prepend_bytes(text: &mut [u8], end: usize, piece: &[u8]) -> usize
    requires room { length piece.now ≤ end }
    requires within { end ≤ length text.old }
    ensures start { result + length piece.now ≡ end }
    ensures written { drop result text.new ≡ piece.now ++ drop end text.old }
{
    let start = end - piece.len();
    text[start..end].copy_from_slice(piece);
    start
}

/// Writes this number so that it ends at `end`, and returns where it starts.
#[inline(always)]
pub fn prepend_number(text: &mut [u8], end: usize, n: u64) -> usize
    requires room { 20 ≤ end }
    requires within { end ≤ length text.old }
    ensures start { result + length (decimal n) ≡ end }
    ensures short { end ≤ result + 20 }
    ensures written { drop result text.new ≡ decimal n ++ drop end text.old }
{
    write_digits(n, text, end)
}

/// As `prepend_number`, but for a number of 128 bits.
pub fn prepend_wide_number(text: &mut [u8], end: usize, n: u128) -> usize
    requires room { 40 ≤ end }
    requires within { end ≤ length text.old }
    ensures start { result + length (decimal n) ≡ end }
    ensures short { end ≤ result + 40 }
    ensures written { drop result text.new ≡ decimal n ++ drop end text.old }
{
    // Divisions of 64 bits are much faster, and nearly every number fits.
    if n <= u64::MAX as u128 {
        prepend_number(text, end, n as u64)
    } else {
        let mut buffer = Buffer::new();
        prepend_bytes(text, end, buffer.format(n).as_bytes())
    }
}

/// Appends this number. An `AllocError` leaves the text as it was.
pub fn print_number(out: &mut Vec<u8>, n: u128) -> Result<(), AllocError>
    ensures ok { OnOk result (out.new.items ≡ out.old.items ++ decimal n) }
    ensures err { OnErr result (out.new.items ≡ out.old.items) }
{
    let mut buffer = Buffer::new();
    if n <= u64::MAX as u128 {
        out.extend_from_slice(buffer.format(n as u64).as_bytes())
    } else {
        out.extend_from_slice(buffer.format(n).as_bytes())
    }
}
