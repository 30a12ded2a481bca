//! Values computed outside this crate, and each answer of each call once.
use crate::{Name, Style, canon, code, key_code, mix, pack, slot, unpack};
use std::process::Abort;

fn name(rt: &impl Abort, bytes: &[u8]) -> Name {
    Name::new(bytes).expect(rt, "a name")
}

#[test]
fn mixing(rt: HostRuntime) {
    for (key, salt, want) in [
        (1, 0, 0xb456_bcfc_34c2_cb2c),
        (0, 0, 0),
        (1, 1, 0),
        (u64::MAX, 0, 0x64b5_720b_4b82_5f21),
        (0x0123_4567_89ab_cdef, 42, 0xe08b_6ceb_f905_24e2),
    ] {
        assert_eq!(rt; mix(key, salt), want, "mix({key}, {salt})");
    }
    for (low, high, seed, want) in [
        (7, 0, 0, 0x7407_29cb_e468_d1dd),
        (7, 1, 0, 0x32df_d60a_f560_a63f),
        (0, 1, 9, 0xe57c_8f97_e651_83f0),
        (u64::MAX, u64::MAX, 5, 0x095a_9031_b61f_1521),
    ] {
        assert_eq!(rt;
            key_code(low, high, seed),
            want,
            "key_code({low}, {high}, {seed})"
        );
    }
}

#[test]
fn slots(rt: HostRuntime) {
    for (h, c, i, want) in [
        (mix(1, 0), 4, 0, 1),
        (mix(1, 0), 4, 6, 7),
        (mix(1, 0), 4, 7, 0),
        (mix(1, 0), 4, 8, 9),
        (mix(1, 0), 4, 15, 8),
        (mix(1, 0), 3, 7, 0),
        (mix(1, 0), 19, 0, 416_097),
        (mix(1, 0), 19, 8, 278_857),
        (mix(1, 0), 19, 524_287, 29_048),
        (0, 19, 524_287, 524_287),
        (u64::MAX, 3, 0, 7),
        (u64::MAX, 4, 8, 7),
        (u64::MAX, 19, 8, 524_279),
        (u64::MAX, 19, 524_287, 6),
        (0xffff_ffff_0000_0000, 19, 8, 524_280),
    ] {
        assert!(rt; 3 <= c && c <= 19 && i < 1 << c, "step {i} of 2^{c}");
        assert_eq!(rt; slot(h, c, i), want, "slot({h}, {c}, {i})");
    }
}

#[test]
fn names(rt: HostRuntime) {
    let long = [b'x'; 49];
    for (bytes, is_name) in [
        (b"".as_slice(), false),
        (&long[..1], true),
        (&long[..48], true),
        (&long[..], false),
        (b" ", false),
        (b"!", true),
        (b"~", true),
        (b"\x7f", false),
        (b"a b", false),
        (b"ab\x80", false),
    ] {
        let made = Name::new(bytes);
        assert_eq!(rt; made.is_some(), is_name, "{bytes:?}");
        if let Some(made) = made {
            assert_eq!(rt; made.bytes(), bytes);
        }
    }
    for (low, high) in [
        (b"!".as_slice(), b"ANN".as_slice()),
        (b"ANN", b"Ann"),
        (b"Ann", b"Anna"),
        (b"Anna", b"Bob"),
        (b"Bob", b"ann"),
    ] {
        let low = name(&rt, low);
        let high = name(&rt, high);
        assert!(rt; low < high && high > low && low != high, "{low:?} {high:?}");
    }
}

#[test]
fn codes(rt: HostRuntime) {
    let long = b"aHoVcJqXeLsZgNuBiPwDkRyFmTaHoVcJqXeLsZgNuBiPwDkR";
    for (bytes, fold, seed, want) in [
        (b"Z".as_slice(), false, 0, 0x7b4a_43c8_ec9b_1d33),
        (b"Z", true, 0, 0xff25_b101_a619_c364),
        (b"AbCdEfG", false, 0, 0x5071_b4a0_a762_6834),
        (b"AbCdEfG", true, 0, 0x0eee_9dc3_43b7_66e4),
        (
            b"AbCdEfGh",
            false,
            0x9e37_79b9_7f4a_7c15,
            0x61aa_5213_ff2f_5746,
        ),
        (
            b"AbCdEfGh",
            true,
            0x9e37_79b9_7f4a_7c15,
            0x6051_652a_f901_7043,
        ),
        (b"AbCdEfGhI", false, 0, 0x7589_b603_4c4e_7109),
        (
            b"AbCdEfGhI",
            false,
            0x9e37_79b9_7f4a_7c15,
            0x15cc_860b_d9b1_b689,
        ),
        (b"AbCdEfGhI", true, 0, 0x4ba8_042f_ca18_b5c5),
        (
            b"AbCdEfGhI",
            true,
            0x9e37_79b9_7f4a_7c15,
            0xb392_e7ea_bbe4_28ca,
        ),
        (
            long.as_slice(),
            false,
            0x9e37_79b9_7f4a_7c15,
            0x2f64_142a_3416_ef38,
        ),
        (
            long.as_slice(),
            true,
            0x9e37_79b9_7f4a_7c15,
            0x1c38_e476_38d7_77fb,
        ),
    ] {
        let style = Style { fold, seed };
        assert_eq!(rt; code(&name(&rt, bytes), style), want, "{bytes:?} {style:?}");
    }
}

#[test]
fn spellings(rt: HostRuntime) {
    let folding = Style {
        fold: true,
        seed: 0,
    };
    let exact = Style {
        fold: false,
        seed: 0,
    };
    let mixed = name(&rt, b"@AZ[`az{09");
    assert_eq!(rt; canon(folding, &mixed).bytes(), b"@az[`az{09".as_slice());
    assert_eq!(rt; canon(exact, &mixed), mixed);
}

#[test]
fn entries(rt: HostRuntime) {
    let ann = name(&rt, b"Ann");
    let block = pack(&ann, 5);
    assert_eq!(rt; block, [3, 5, 7_237_185, 0, 0, 0, 0, 0]);
    assert_eq!(rt; unpack(&block), Some((ann, 5)));
    let long = name(&rt, b"aHoVcJqXeLsZgNuBiPwDkRyFmTaHoVcJqXeLsZgNuBiPwDkR");
    let full = pack(&long, u64::MAX);
    assert_eq!(rt;
        full,
        [
            48,
            u64::MAX,
            6_372_956_738_218_313_825,
            4_788_819_984_584_494_181,
            5_078_180_675_500_593_257,
            5_360_223_017_456_718_957,
            5_649_583_708_809_025_649,
            5_938_915_812_859_003_509,
        ]
    );
    assert_eq!(rt; unpack(&full), Some((long, u64::MAX)));
    for refused in [
        [0, 5, 0, 0, 0, 0, 0, 0],
        [2, 5, 7_237_185, 0, 0, 0, 0, 0],
        [4, 5, 7_237_185, 0, 0, 0, 0, 0],
        [3, 5, 7_237_185, 0, 0, 0, 0, 1 << 63],
        [3, 5, 0x20_6e41, 0, 0, 0, 0, 0],
        [49, 5, 0x2121_2121_2121_2121, 0, 0, 0, 0, 0],
        [u64::MAX, 5, 7_237_185, 0, 0, 0, 0, 0],
    ] {
        assert_eq!(rt; unpack(&refused), None, "{refused:?}");
    }
}
