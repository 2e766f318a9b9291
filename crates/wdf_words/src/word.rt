//! One word of the form `name=value`, cut at its first `=`.

ghost use Rattle.std.specs.Prelude.{◌≡◌};
ghost use Rattle.std.specs.List.{list_any};
ghost use Rattle.wdf_words.specs.Orders.{gives, is_equals, name_in, value_in};

pub(crate) fn has_equals(word: &str) -> bool
    ensures { result ≡ list_any is_equals word.now }
{
    word.as_bytes().iter().any(|byte| *byte == b'=')
}

/// What stands before the first `=`, or the whole word where there is none.
pub(crate) fn name_in(word: &str) -> &str
    ensures { result.now ≡ name_in word.now }
{
    match word.split_once('=') {
        Some((name, _)) => name,
        None => word,
    }
}

/// What stands behind the first `=`, or nothing where there is none.
pub(crate) fn value_in(word: &str) -> &str
    ensures { result.now ≡ value_in word.now }
{
    match word.split_once('=') {
        Some((_, value)) => value,
        None => "",
    }
}

/// Whether the word gives the operand of this name.
pub(crate) fn gives(word: &str, name: &str) -> bool
    ensures { result ≡ gives name.now word.now }
{
    has_equals(word) && name_in(word) == name
}
