//! What the words give, by the names of operands.

ghost use Rattle.std.specs.Prelude.{◌≡◌, ◌<◌, IfSome, length};
ghost use Rattle.wdf_words.specs.Orders.{file_named, is_given, number_given, place_given, texts};

use crate::word::{gives, value_in};
use wdf_text::whole;

/// The place of the first word that gives the operand of this name.
pub(crate) fn place_given(words: &[String], name: &str) -> Option<usize>
    ensures place { result ≡ place_given name.now (texts words.now) }
    ensures within { IfSome result (λ at. at < length words.now) }
{
    for (at, word) in words.iter().enumerate() {
        if gives(word, name) {
            return Some(at);
        }
    }
    None
}

pub(crate) fn is_given(words: &[String], name: &str) -> bool
    ensures { result ≡ is_given name.now (texts words.now) }
{
    place_given(words, name).is_some()
}

/// The number that the operand of this name is given.
pub(crate) fn number_given(words: &[String], name: &str) -> Option<u64>
    ensures { result ≡ number_given name.now (texts words.now) }
{
    let at = place_given(words, name)?;
    whole(file_name(words, at).as_bytes())
}

/// The name of the file in this word, counted from 0: what stands behind its first `=`.
///
/// The words are those of [`read_words`](crate::read_words), and the place is the order's `net` or
/// `cert`.
pub fn file_name(words: &[String], word: usize) -> &str
    requires { word < length words.now }
    ensures { result.now ≡ file_named (texts words.now) word }
{
    value_in(&words[word])
}
