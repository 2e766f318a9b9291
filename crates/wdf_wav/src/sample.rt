ghost use Rattle.std.specs.Prelude.{◌≡◌, ◌-◌, ◌/◌, length, take, drop, replicate};
ghost use Rattle.wdf_algebra.specs.Samples.{IsSampleValue, IsSampleWidth};
ghost use Rattle.wdf_wav.specs.SampleCoding.{sample_coding, sample_value};

use byteorder::{ByteOrder, LittleEndian};

/// The value of the sample that these bytes are: `bits / 8` of them, and `bits` is 8, 16, 24 or 32.
///
/// | bits | bytes | value |
/// |---|---|---|
/// | 8 | 1 | -128 to 127: the byte less 128 |
/// | 16, 24, 32 | 2, 3, 4 | -2^(bits-1) to 2^(bits-1) - 1: two's complement, lowest byte first |
#[tactic(auto, unfolding(crate::specs::SampleCoding::sample_value))]
pub fn sample_of(bytes: &[u8], bits: u16) -> i64
    requires width { IsSampleWidth bits }
    requires whole { length bytes.now ≡ bits / 8 }
    ensures value { result ≡ sample_value bits bytes.now }
    ensures range { IsSampleValue bits result }

    // These bytes are written for that value alone.
    ensures coding { sample_coding bits result ≡ bytes.now }
{
    match bits {
        8 => i64::from(bytes[0]) - 128,
        16 => i64::from(LittleEndian::read_i16(bytes)),
        24 => i64::from(LittleEndian::read_i24(bytes)),
        _ => i64::from(LittleEndian::read_i32(bytes)),
    }
}

/// The bytes of a sample, as [`sample_of`] reads them: the first `bits / 8` of the four, and the
/// others are 0. `bits` is 8, 16, 24 or 32, and the value is in the range of that width.
#[tactic(auto, unfolding(crate::specs::SampleCoding::sample_coding))]
pub fn sample_bytes(value: i64, bits: u16) -> [u8; 4]
    requires width { IsSampleWidth bits }
    requires range { IsSampleValue bits value }
    ensures coding { take (bits / 8) result ≡ sample_coding bits value }

    // They are read as this value.
    ensures value { sample_value bits (take (bits / 8) result) ≡ value }
    ensures rest { drop (bits / 8) result ≡ replicate (4 - bits / 8) 0 }
{
    let mut bytes = [0; 4];
    match bits {
        8 => bytes[0] = (value + 128) as u8,
        16 => LittleEndian::write_i16(&mut bytes, value as i16),
        24 => LittleEndian::write_i24(&mut bytes, value as i32),
        _ => LittleEndian::write_i32(&mut bytes, value as i32),
    }
    bytes
}
