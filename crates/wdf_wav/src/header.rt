ghost use Rattle.std.specs.Prelude.{◌≡◌, ◌≤◌, ◌<◌, ◌++◌, codes, slice_range};
ghost use Rattle.wdf_wav.specs.Header.{IsFrameFormat, data_size, head_bytes_of, u32};

use crate::Head;
use byteorder::{ByteOrder, LittleEndian};

/// The header of a wave, which stands before its data. Numbers have their lowest byte first.
///
/// | at | bytes | field |
/// |---|---|---|
/// | 0 | 4 | `RIFF` |
/// | 4 | 4 | the bytes after this field: 36 + D + pad |
/// | 8 | 4 | `WAVE` |
/// | 12 | 4 | `fmt ` |
/// | 16 | 4 | the size of the format chunk: 16 |
/// | 20 | 2 | the tag of uncompressed PCM: 1 |
/// | 22 | 2 | channels |
/// | 24 | 4 | frames a second: rate |
/// | 28 | 4 | bytes a second: rate · align |
/// | 32 | 2 | bytes a frame: align |
/// | 34 | 2 | bits a sample |
/// | 36 | 4 | `data` |
/// | 40 | 4 | the bytes of all frames: D |
///
/// Here align is channels · bits / 8, D is frames · align, and pad is 1 where D is odd, else 0. The
/// head has 1 to 8 channels of 8, 16, 24 or 32 bits, a rate of at most 1,000,000, and D is below
/// 0xFFFFFF00, from where on a size stands for an unknown length.
#[tactic(auto, unfolding(crate::specs::Header::head_bytes_of))]
pub fn head_bytes(head: &Head) -> [u8; 44]
    requires format { IsFrameFormat head.now.channels head.now.bits }
    requires rate { head.now.rate ≤ 1000000 }
    requires size { data_size head.now < 0xFFFFFF00 }
    ensures { result ≡ head_bytes_of head.now }
{
    let data = head.frames * u32::from(head.block_align());
    let mut bytes = [0; 44];
    bytes[..12].copy_from_slice(&riff_header(36 + data + data % 2));
    bytes[12..36].copy_from_slice(&format_chunk(head));
    bytes[36..].copy_from_slice(&data_header(data));
    bytes
}

// The bytes from 0 to 11. `size` bytes follow the size.
fn riff_header(size: u32) -> [u8; 12]
    ensures { result ≡ codes "RIFF" ++ u32 size ++ codes "WAVE" }
{
    let mut bytes = [0; 12];
    bytes[..4].copy_from_slice(b"RIFF");
    LittleEndian::write_u32(&mut bytes[4..8], size);
    bytes[8..].copy_from_slice(b"WAVE");
    bytes
}

// The bytes from 12 to 35.
#[tactic(auto, unfolding(crate::specs::Header::head_bytes_of))]
fn format_chunk(head: &Head) -> [u8; 24]
    requires format { IsFrameFormat head.now.channels head.now.bits }
    requires rate { head.now.rate ≤ 1000000 }
    ensures { result ≡ slice_range (head_bytes_of head.now) 12 36 }
{
    let align = head.block_align();
    let mut bytes = [0; 24];
    bytes[..4].copy_from_slice(b"fmt ");
    LittleEndian::write_u32(&mut bytes[4..8], 16);
    LittleEndian::write_u16(&mut bytes[8..10], 1);
    LittleEndian::write_u16(&mut bytes[10..12], head.channels);
    LittleEndian::write_u32(&mut bytes[12..16], head.rate);
    LittleEndian::write_u32(&mut bytes[16..20], head.rate * u32::from(align));
    LittleEndian::write_u16(&mut bytes[20..22], align);
    LittleEndian::write_u16(&mut bytes[22..], head.bits);
    bytes
}

// The bytes from 36 to 43, before data of `size` bytes.
fn data_header(size: u32) -> [u8; 8]
    ensures { result ≡ codes "data" ++ u32 size }
{
    let mut bytes = [0; 8];
    bytes[..4].copy_from_slice(b"data");
    LittleEndian::write_u32(&mut bytes[4..], size);
    bytes
}
