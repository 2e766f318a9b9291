ghost use Rattle.std.specs.Prelude.{◌≤◌, ◌<◌};
ghost use Rattle.wdf_algebra.specs.Samples.{IsSampleWidth};

use super::*;
use std::process::Abort;

// How many numbers a slice has: none, and around one, two and four groups of lanes.
static LENGTHS: [usize; 10] = [0, 1, 3, 4, 5, 8, 9, 15, 16, 17];

static BYTES: [u8; 34] = [
    0x00, 0x00, 0x01, 0x00, 0xff, 0xff, 0xff, 0x7f, 0x00, 0x80, 0x00, 0x01, 0xfe, 0xff, 0x34, 0x12,
    0x80, 0x80, 0x7f, 0xff, 0x00, 0xff, 0xff, 0x00, 0x0d, 0xf0, 0x39, 0x30, 0xc7, 0xcf, 0x10, 0x27,
    0xf0, 0xd8,
];

// The samples of these bytes, worked by hand.
static VALUES: [i64; 17] = [
    0, 1, -1, 32767, -32768, 256, -2, 4660, -32640, -129, -256, 255, -4083, 12345, -12345, 10000,
    -10000,
];

fn expect_decoded(rt: &impl Abort, length: usize)
    requires { length ≤ 17 }
{
    let mut samples = [7; 18];
    decode16(&BYTES[..2 * length], &mut samples[..length]);
    assert_eq!(rt; samples[..length], VALUES[..length], "{length}");
    assert_eq!(rt; samples[length], 7, "{length}");
}

#[test]
fn decodes_each_length(rt: HostRuntime) {
    for length in LENGTHS {
        assert!(rt; length <= 17);
        expect_decoded(&rt, length);
    }
}

// Four codes of 16 bits in a row, and the values that they stand for in two's complement.
fn expect_values(rt: &impl Abort, first: usize)
    requires { first < 65533 }
{
    let mut bytes = [0u8; 8];
    for lane in 0..4 {
        bytes[2 * lane] = ((first + lane) % 256) as u8;
        bytes[2 * lane + 1] = ((first + lane) / 256) as u8;
    }
    let mut samples = [7; 4];
    decode16(&bytes, &mut samples);
    for lane in 0..4 {
        let code = (first + lane) as i64;
        let value = if code < 32768 { code } else { code - 65536 };
        assert_eq!(rt; samples[lane], value, "{code}");
    }
}

#[test]
fn decodes_every_value(rt: HostRuntime) {
    for group in 0..16384 {
        expect_values(&rt, 4 * group);
    }
}

// Load waves, and the output samples that they come to by this shift at this width, with those that
// are limited: at and beside both limits, worked by hand.
#[derive(Clone, Copy)]
struct Limits {
    down: u8,
    bits: u8,
    waves: [i64; 6],
    values: [i64; 6],
    limited: [bool; 6],
}

static LIMITS: [Limits; 6] = [
    Limits {
        down: 1,
        bits: 8,
        waves: [255, 256, -257, -258, -1, 300],
        values: [127, 127, -128, -128, 0, 127],
        limited: [false, true, false, true, false, true],
    },
    Limits {
        down: 8,
        bits: 16,
        waves: [8388607, 8388608, -8388863, -8388864, -255, 256],
        values: [32767, 32767, -32768, -32768, 0, 1],
        limited: [false, true, false, true, false, false],
    },
    Limits {
        down: 0,
        bits: 24,
        waves: [8388607, 8388608, -8388608, -8388609, i64::MAX, i64::MIN],
        values: [8388607, 8388607, -8388608, -8388608, 8388607, -8388608],
        limited: [false, true, false, true, true, true],
    },
    Limits {
        down: 0,
        bits: 32,
        waves: [
            2147483647,
            2147483648,
            -2147483648,
            -2147483649,
            i64::MAX,
            i64::MIN,
        ],
        values: [
            2147483647,
            2147483647,
            -2147483648,
            -2147483648,
            2147483647,
            -2147483648,
        ],
        limited: [false, true, false, true, true, true],
    },
    Limits {
        down: 33,
        bits: 32,
        waves: [
            8589934591,
            -8589934591,
            8589934592,
            -8589934592,
            -8589934593,
            i64::MIN,
        ],
        values: [0, 0, 1, -1, -1, -1073741824],
        limited: [false, false, false, false, false, false],
    },
    Limits {
        down: 33,
        bits: 24,
        waves: [
            72057594037927935,
            72057594037927936,
            -72057602627862527,
            -72057602627862528,
            i64::MAX,
            i64::MIN,
        ],
        values: [8388607, 8388607, -8388608, -8388608, 8388607, -8388608],
        limited: [false, true, false, true, true, true],
    },
];

// The waves in turn, `length` of them from number `first` on, so that each comes to each lane.
fn expect_limited(rt: &impl Abort, row: &Limits, length: usize, first: usize)
    requires few { row.now.down ≤ 33 }
    requires width { IsSampleWidth row.now.bits }
    requires length { length ≤ 17 }
    requires first { first < 6 }
{
    let mut waves = [0; 17];
    let mut values = [0; 17];
    let mut count = 0u64;
    for at in 0..length {
        let turn = (first + at) % 6;
        waves[at] = row.waves[turn];
        values[at] = row.values[turn];
        count = count.wrapping_add(u64::from(row.limited[turn]));
    }
    let mut out = [7; 18];
    let limited = limit_block(&waves[..length], row.down, row.bits, &mut out[..length]);
    assert_eq!(rt; out[..length], values[..length], "{length} from {first}");
    assert_eq!(rt; limited, count, "{length} from {first}");
    assert_eq!(rt; out[length], 7, "{length} from {first}");
}

#[test]
fn limits_in_each_lane(rt: HostRuntime) {
    for row in LIMITS {
        assert!(rt; row.down <= 33);
        assert!(rt; row.bits == 8 || row.bits == 16 || row.bits == 24 || row.bits == 32);
        for length in LENGTHS {
            assert!(rt; length <= 17);
            for first in 0..6 {
                expect_limited(&rt, &row, length, first);
            }
        }
    }
}
