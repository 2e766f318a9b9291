ghost use Rattle.std.specs.Prelude.{◌≡◌, ◌≤◌, ◌*◌, ◌/◌, length, take};
ghost use Rattle.wdf_wav.specs.PcmStream.{samples_of};

use crate::lanes::four_samples;
use wdf_wav::laws::data_append;
use wdf_wav::sample_of;

// The samples in whole groups of four.
fn decode_groups(bytes: &[u8], out: &mut [i64])
    requires whole { length bytes.now ≡ length out.old * 2 }
    ensures room { length out.new ≡ length out.old }
    ensures read { take (length out.old / 4 * 4) out.new ≡ samples_of 16 (take (length out.old / 4 * 8) bytes.now) }
{
    data_append(16);
    for k in 0..out.len() / 4 {
        four_samples(&bytes[k * 8..k * 8 + 8]).copy_to_slice(&mut out[k * 4..]);
    }
}

// The samples from number `from` on, where those before are there.
fn decode_rest(bytes: &[u8], from: usize, out: &mut [i64])
    requires whole { length bytes.now ≡ length out.old * 2 }
    requires inside { from ≤ length out.old }
    requires before { take from out.old ≡ samples_of 16 (take (from * 2) bytes.now) }
    ensures { out.new ≡ samples_of 16 bytes.now }
{
    data_append(16);
    for k in from..out.len() {
        out[k] = sample_of(&bytes[k * 2..k * 2 + 2], 16);
    }
}

/// Gives the values of the samples of 16 bits in `bytes`: two's complement, the lowest byte first.
///
/// `bytes` has two entries for each of `out`.
pub fn decode16(bytes: &[u8], out: &mut [i64])
    requires { length bytes.now ≡ length out.old * 2 }
    ensures { out.new ≡ samples_of 16 bytes.now }
{
    decode_groups(bytes, out);
    decode_rest(bytes, out.len() / 4 * 4, out);
}
