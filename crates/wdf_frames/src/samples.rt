// The samples of a block: their values, the first over amp, and the output samples of load waves.
ghost use Rattle.std.specs.Prelude.{◌≡◌, ◌*◌, ◌-◌, ◌/◌, ◌<◌, ◌≤◌, length, take, map, filter, pos, slice_index_or, unsigned_abs, true, All};
ghost use Rattle.wdf_algebra.specs.Samples.{IsSampleValue, IsSampleWidth};
ghost use Rattle.wdf_law.specs.OutputRule.{output_of};
ghost use Rattle.wdf_loop.specs.Limiting.{is_limited};
ghost use Rattle.wdf_wav.specs.SampleCoding.{sample_coding};
ghost use Rattle.wdf_wav.specs.PcmStream.{samples_of, data_of};

use wdf_lane::{decode16, limit_block};
use wdf_wav::{sample_bytes, sample_of};

// How many output samples are made before they are written.
const ROOM: usize = 256;

// The width is a constant of the code, so that the loop has no choice in it.
fn decode_at<const BITS: u8>(bytes: &[u8], samples: &mut [i64])
    requires width { IsSampleWidth BITS }
    requires whole { length bytes.now ≡ length samples.old * (BITS / 8) }
    ensures { samples.new ≡ samples_of BITS bytes.now }
{
    let size = usize::from(BITS / 8);
    for k in 0..samples.len() {
        samples[k] = sample_of(&bytes[k * size..(k + 1) * size], u16::from(BITS));
    }
}

/// Gives the values of the samples in `bytes`, of `bits` bits each.
pub(crate) fn decode(bits: u8, bytes: &[u8], samples: &mut [i64])
    requires width { IsSampleWidth bits }
    requires whole { length bytes.now ≡ length samples.old * (bits / 8) }
    ensures { samples.new ≡ samples_of bits bytes.now }
{
    match bits {
        8 => decode_at::<8>(bytes, samples),
        16 => decode16(bytes, samples),
        24 => decode_at::<24>(bytes, samples),
        _ => decode_at::<32>(bytes, samples),
    }
}

// Whether a sample's magnitude is at most `amp`.
#[inline(always)]
fn is_small(amp: u32, sample: i64) -> bool
    ensures { result ≡ true → unsigned_abs sample ≤ amp }
{
    sample.unsigned_abs() <= u64::from(amp)
}

// Whether no sample's magnitude is over `amp`. The loop has no way out, so that several samples are
// compared at once.
fn are_small(amp: u32, samples: &[i64]) -> bool
    ensures { result ≡ true → All (λ z. unsigned_abs z ≤ amp) samples.now }
{
    let mut all = true;
    for at in 0..samples.len() {
        all &= is_small(amp, samples[at]);
    }
    all
}

// How many samples stand in front of the first whose magnitude is over `amp`: all where none is.
fn first_over(amp: u32, samples: &[i64]) -> usize
    ensures most { result ≤ length samples.now }
    ensures small { All (λ z. unsigned_abs z ≤ amp) (take result samples.now) }
    ensures over { result < length samples.now → amp < unsigned_abs (slice_index_or samples.now result (pos 0)) }
{
    for at in 0..samples.len() {
        if samples[at].unsigned_abs() > u64::from(amp) {
            return at;
        }
    }
    samples.len()
}

/// How many samples stand in front of the first whose magnitude is over `amp`: all where none is.
pub(crate) fn count_small(amp: u32, samples: &[i64]) -> usize
    ensures most { result ≤ length samples.now }
    ensures small { All (λ z. unsigned_abs z ≤ amp) (take result samples.now) }
    ensures over { result < length samples.now → amp < unsigned_abs (slice_index_or samples.now result (pos 0)) }
{
    if are_small(amp, samples) {
        return samples.len();
    }
    first_over(amp, samples)
}

// Writes one sample.
#[inline(always)]
fn write_one(bits: u8, sample: i64, bytes: &mut [u8])
    requires width { IsSampleWidth bits }
    requires range { IsSampleValue bits sample }
    requires room { length bytes.old ≡ bits / 8 }
    ensures { bytes.new ≡ sample_coding bits sample }
{
    let coded = sample_bytes(sample, u16::from(bits));
    bytes.copy_from_slice(&coded[..usize::from(bits / 8)]);
}

// The width is a constant of the code, so that the loop has no choice in it.
fn write_at<const BITS: u8>(samples: &[i64], bytes: &mut [u8])
    requires width { IsSampleWidth BITS }
    requires range { All (IsSampleValue BITS) samples.now }
    requires room { length bytes.old ≡ length samples.now * (BITS / 8) }
    ensures { bytes.new ≡ data_of BITS samples.now }
{
    let size = usize::from(BITS / 8);
    for k in 0..samples.len() {
        write_one(BITS, samples[k], &mut bytes[k * size..(k + 1) * size]);
    }
}

// Writes samples one after another.
fn write_samples(bits: u8, samples: &[i64], bytes: &mut [u8])
    requires width { IsSampleWidth bits }
    requires range { All (IsSampleValue bits) samples.now }
    requires room { length bytes.old ≡ length samples.now * (bits / 8) }
    ensures { bytes.new ≡ data_of bits samples.now }
{
    match bits {
        8 => write_at::<8>(samples, bytes),
        16 => write_at::<16>(samples, bytes),
        24 => write_at::<24>(samples, bytes),
        _ => write_at::<32>(samples, bytes),
    }
}

// Writes the output samples of the waves from number `from` to `to`, where those before are written,
// and says how many up to there were limited, where `before` of those before were. `samples` is room
// for them.
fn encode_part(
    down: u8,
    bits: u8,
    waves: &[i64],
    from: usize,
    to: usize,
    before: u64,
    samples: &mut [i64],
    bytes: &mut [u8],
) -> u64
    requires few { down ≤ 33 }
    requires width { IsSampleWidth bits }
    requires room { length bytes.old ≡ length waves.now * (bits / 8) }
    requires part { from ≤ to }
    requires inside { to ≤ length waves.now }
    requires samples { length samples.old ≡ to - from }
    requires bytes { take (from * (bits / 8)) bytes.old ≡ data_of bits (map (output_of down bits) (take from waves.now)) }
    requires limited { before ≡ length (filter (is_limited down bits) (take from waves.now)) }
    requires most { before ≤ from }
    ensures room { length bytes.new ≡ length bytes.old }
    ensures samples { length samples.new ≡ length samples.old }
    ensures bytes { take (to * (bits / 8)) bytes.new ≡ data_of bits (map (output_of down bits) (take to waves.now)) }
    ensures limited { result ≡ length (filter (is_limited down bits) (take to waves.now)) }
    ensures most { result ≤ to }
{
    let size = usize::from(bits / 8);
    let limited = limit_block(&waves[from..to], down, bits, samples);
    write_samples(bits, samples, &mut bytes[from * size..to * size]);
    before + limited
}

/// Writes the output samples that load waves come to, and says how many were limited.
pub(crate) fn encode(down: u8, bits: u8, waves: &[i64], bytes: &mut [u8]) -> u64
    requires few { down ≤ 33 }
    requires width { IsSampleWidth bits }
    requires room { length bytes.old ≡ length waves.now * (bits / 8) }
    ensures bytes { bytes.new ≡ data_of bits (map (output_of down bits) waves.now) }
    ensures limited { result ≡ length (filter (is_limited down bits) waves.now) }
    ensures most { result ≤ length waves.now }
{
    let mut samples = [0; ROOM];
    let mut limited = 0;
    for k in 0..waves.len() / ROOM {
        let from = k * ROOM;
        let to = from + ROOM;
        limited = encode_part(down, bits, waves, from, to, limited, &mut samples, bytes);
    }
    let from = waves.len() / ROOM * ROOM;
    let to = waves.len();
    encode_part(
        down,
        bits,
        waves,
        from,
        to,
        limited,
        &mut samples[..to - from],
        bytes,
    )
}
