use super::*;
use std::test::Fail;

// A load wave, its shift, the width, and the output sample, worked by hand: at and beside both
// limits of each width, with and without a fraction, and the least wave of all.
static SAMPLES: [(i64, u8, u8, i64, bool); 30] = [
    (127, 0, 8, 127, false),
    (128, 0, 8, 127, true),
    (-128, 0, 8, -128, false),
    (-129, 0, 8, -128, true),
    (32767, 0, 16, 32767, false),
    (32768, 0, 16, 32767, true),
    (-32768, 0, 16, -32768, false),
    (-32769, 0, 16, -32768, true),
    (8388607, 0, 24, 8388607, false),
    (8388608, 0, 24, 8388607, true),
    (-8388608, 0, 24, -8388608, false),
    (-8388609, 0, 24, -8388608, true),
    (2147483647, 0, 32, 2147483647, false),
    (2147483648, 0, 32, 2147483647, true),
    (-2147483648, 0, 32, -2147483648, false),
    (-2147483649, 0, 32, -2147483648, true),
    (255, 1, 8, 127, false),
    (256, 1, 8, 127, true),
    (-257, 1, 8, -128, false),
    (-258, 1, 8, -128, true),
    (8388607, 8, 16, 32767, false),
    (8388608, 8, 16, 32767, true),
    (-8388863, 8, 16, -32768, false),
    (-8388864, 8, 16, -32768, true),
    (8589934591, 33, 32, 0, false),
    (-8589934591, 33, 32, 0, false),
    (-8589934592, 33, 32, -1, false),
    (i64::MAX, 33, 24, 8388607, true),
    (i64::MIN, 33, 32, -1073741824, false),
    (i64::MIN, 0, 8, -128, true),
];

#[test]
fn output_samples(rt: HostRuntime) {
    for (w, down, bits, value, limited) in SAMPLES {
        if down <= 33 && (bits == 8 || bits == 16 || bits == 24 || bits == 32) {
            let sample = out_sample(w, down, bits);
            assert_eq!(rt;
                sample,
                Limited { value, limited },
                "{w} by {down} at {bits}"
            );
        } else {
            assert!(rt; false);
        }
    }
}
