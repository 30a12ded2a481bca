//! The order in which a hash goes through the slots of a map.
ghost use Rattle.std.specs.Prelude.{◌≡◌, ℕ, ◌^◌, ◌<◌, ◌≤◌};
ghost use Rattle.ck_probe.specs.ProbeOrder.{IsBijectionBelow, IsInverseBelow, slot_of, step_of};

/// The slot that the hash `h` meets at step `i` in a map of `2 ^ c` slots.
///
/// The slots lie in lines of eight. A probe goes through the eight of a line, from a place that the
/// hash chooses, and then on to the line that is the hash's odd stride further. Each slot comes at
/// exactly one step below `2 ^ c`.
#[inline]
pub fn slot(h: u64, c: u64, i: u64) -> u64
    requires c_low { 3 ≤ c }
    requires c_high { c ≤ 19 }
    requires step { i < 2 ^ c }
    ensures value { result ≡ slot_of h c i }
    ensures within { result < 2 ^ c }
    ensures step { step_of h c result ≡ i }
    ensures bijection { IsBijectionBelow (2 ^ c) (slot_of h c) }
{
    let mask = (1 << (c - 3)) - 1;
    let stride = ((h >> 32) | 1) & mask;
    let line = ((h & mask) + (i >> 3) * stride) & mask;
    let place = ((h >> 17) + i) & 7;
    (line << 3) | place
}

/// The probe order goes through each slot exactly once, whatever the hash and the size of the map;
/// `step_of` tells the step of a slot.
pub fn probe_order_law()
    ensures bijection { (h c : ℕ) → 3 ≤ c → IsBijectionBelow (2 ^ c) (slot_of h c) }
    ensures inverse { (h c : ℕ) → 3 ≤ c → IsInverseBelow (2 ^ c) (slot_of h c) (step_of h c) }
{}
