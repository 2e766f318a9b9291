//! Names of elements and nodes.

ghost use Rattle.std.specs.Prelude.{◌≡◌, ◌↔◌, IfSome, IsSome, IsTrue};
ghost use Rattle.std.specs.List.{list_all};
ghost use Rattle.wdf_text.specs.Names.{IsName, at_sign, is_name_byte, is_name_or_at_sign};

use std::marker::Model;

/// A name: 1 to 16 bytes of ASCII letters, digits and `_`, or the one name `@`, which no text can give.
///
/// It holds its bytes in place. Upper and lower case differ.
#[derive(Clone, Copy, Debug, PartialEq, Eq, Hash)]
pub struct Name {
    // the name, then zeros
    bytes: [u8; 16],
    len: u8,
}

impl Model for Name {
    ghost use Rattle.std.specs.Prelude.{List, ℕ, length, take};
    ghost use Rattle.std.proofs.Common.{arith, length-take-le};
    ghost use Rattle.wdf_text.specs.Padding.{IsPaddedName, padded};

    ghost Value = { List ℕ };

    ghost view = { λ n. take n.len n.bytes };

    ghost invariant = { λ n. IsPaddedName n.bytes n.len };

    ghost inverse = { λ bytes. record { bytes = padded bytes; len = length bytes } };

    ghost inverse_ok = { λ n h i. record {
      bytes = h.padded.rest i;
      len = length-take-le n.len n.bytes (omega (arith, h.padded.fits, h.padded.long)) i;
    } };
}

// Whether the byte is an ASCII letter, a digit or `_`.
fn is_name_byte(byte: u8) -> bool
    ensures { result ≡ is_name_byte byte }
{
    byte.is_ascii_alphanumeric() || byte == b'_'
}

// Whether all the bytes are.
fn are_name_bytes(bytes: &[u8]) -> bool
    ensures { result ≡ list_all is_name_byte bytes.now }
{
    bytes.iter().all(|byte| is_name_byte(*byte))
}

impl Name {
    /// The name of these bytes; None where they are not 1 to 16 ASCII letters, digits and `_`, so
    /// None of `@` too.
    pub fn new(bytes: &[u8]) -> Option<Name>
        ensures named { IsSome result ↔ IsName bytes.now }
        ensures value { IfSome result (λ name. name ≡ bytes.now) }
    {
        if bytes.is_empty() || bytes.len() > 16 || !are_name_bytes(bytes) {
            return None;
        }
        let mut room = [0; 16];
        room[..bytes.len()].copy_from_slice(bytes);
        Some(Name {
            bytes: room,
            len: bytes.len() as u8,
        })
    }

    /// The name `@`.
    pub fn at_sign() -> Name
        ensures { result ≡ at_sign }
    {
        let mut room = [0; 16];
        room[0] = b'@';
        Name {
            bytes: room,
            len: 1,
        }
    }

    /// The bytes of the name, 1 to 16 of them.
    pub fn as_bytes(&self) -> &[u8]
        ensures value { result.now ≡ self.now }
        ensures letters { IsTrue (is_name_or_at_sign self.now) }
    {
        &self.bytes[..usize::from(self.len)]
    }
}
