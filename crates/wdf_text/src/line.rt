//! A line of text in place.

ghost use Rattle.std.specs.Prelude.{◌≡◌, ◌+◌, ◌≤◌, ◌++◌, [], decimal, drop, length, take};
ghost use Rattle.std.specs.Fmt.{signed_decimal};

use itoa::Buffer;
use std::marker::Model;

/// The most bytes of a [`Line`].
pub const MAX_LINE: usize = 256;

/// At most 256 bytes of text, in place: it takes no memory. Contracts see its bytes.
///
/// Nothing ends it by itself: a line feed is a byte of its own.
#[derive(Clone, Copy, Debug, PartialEq, Eq)]
pub struct Line {
    // the text, then zeros
    bytes: [u8; MAX_LINE],
    len: usize,
}

impl Model for Line {
    ghost use Rattle.std.specs.Prelude.{List, ℕ, length, take};
    ghost use Rattle.std.proofs.Common.{arith, length-take-le};
    ghost use Rattle.wdf_text.specs.Padding.{IsPadded, padded_to};
    ghost use Rattle.wdf_text.specs.declared.line.TheConstants.{MAX_LINE};

    ghost Value = { List ℕ };

    ghost view = { λ l. take l.len l.bytes };

    ghost invariant = { λ l. IsPadded MAX_LINE l.bytes l.len };

    ghost inverse = { λ bytes. record { bytes = padded_to MAX_LINE bytes; len = length bytes } };

    ghost inverse_ok = { λ l h i. record {
      bytes = h.rest i;
      len = length-take-le l.len l.bytes (omega (arith, h.fits, h.long)) i;
    } };
}

// Puts the piece into the room at this place.
fn put(room: &mut [u8], at: usize, piece: &[u8])
    requires { at + length piece.now ≤ length room.old }
    ensures { room.new ≡ take at room.old ++ piece.now ++ drop (at + length piece.now) room.old }
{
    room[at..at + piece.len()].copy_from_slice(piece);
}

impl Line {
    /// An empty line.
    pub fn new() -> Line
        ensures { result ≡ [] }
    {
        Line {
            bytes: [0; MAX_LINE],
            len: 0,
        }
    }

    /// Appends the bytes of the piece.
    pub fn push(&mut self, piece: &[u8])
        requires room { length self.old + length piece.now ≤ MAX_LINE }
        ensures { self.new ≡ self.old ++ piece.now }
    {
        put(&mut self.bytes, self.len, piece);
        self.len += piece.len();
    }

    /// Appends the decimal digits, `0` for 0.
    pub fn push_u128(&mut self, n: u128)
        requires room { length self.old + length (decimal n) ≤ MAX_LINE }
        ensures { self.new ≡ self.old ++ decimal n }
    {
        self.push(Buffer::new().format(n).as_bytes());
    }

    /// Appends the decimal digits, with `-` before those of a negative number.
    pub fn push_i128(&mut self, n: i128)
        requires room { length self.old + length (signed_decimal n) ≤ MAX_LINE }
        ensures { self.new ≡ self.old ++ signed_decimal n }
    {
        self.push(Buffer::new().format(n).as_bytes());
    }

    /// The bytes of the line, 0 to 256 of them.
    pub fn as_bytes(&self) -> &[u8]
        ensures value { result.now ≡ self.now }
        ensures short { length result.now ≤ MAX_LINE }
    {
        &self.bytes[..self.len]
    }
}
