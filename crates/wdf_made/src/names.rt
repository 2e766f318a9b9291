//! Names of a letter and a number.

ghost use Rattle.std.specs.Prelude.{◌≡◌, ◌≤◌, codes};
ghost use Rattle.wdf_text.specs.Names.{IsName};
ghost use Rattle.wdf_made.specs.Ladder.{numbered_name};

use wdf_text::{Line, Name};

// The name of a letter and a number.
fn numbered(letter: &[u8], number: u8) -> Name
    requires few { number ≤ 33 }
    requires name { IsName (numbered_name letter.now number) }
    ensures { result ≡ numbered_name letter.now number }
{
    let mut text = Line::new();
    text.push(letter);
    text.push_u128(u128::from(number));
    Name::new(text.as_bytes()).unwrap()
}

// The name of an element, counted from 1.
pub(crate) fn element_name(number: u8) -> Name
    requires { number ≤ 33 }
    ensures { result ≡ numbered_name (codes "E") number }
{
    numbered(b"E", number)
}

// The name of a node.
pub(crate) fn node_name(number: u8) -> Name
    requires { number ≤ 33 }
    ensures { result ≡ numbered_name (codes "n") number }
{
    numbered(b"n", number)
}

// A name that is written as it is.
pub(crate) fn plain(text: &[u8]) -> Name
    requires { IsName text.now }
    ensures { result ≡ text.now }
{
    Name::new(text).unwrap()
}
