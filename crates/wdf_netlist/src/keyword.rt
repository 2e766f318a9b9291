ghost use Rattle.std.specs.Prelude.{◌≡◌};
ghost use Rattle.wdf_netlist.specs.LineRules.{keyword_of};

/// The first word of a line: what the line is.
#[derive(Clone, Copy, Debug, PartialEq, Eq)]
pub enum Keyword {
    Rate,
    Source,
    Input,
    Resistor,
    Inductor,
    Capacitor,
    Load,
    Root,
    Shallow,
    Lattice,
    Branch,
}

/// The keyword that a word is.
pub fn keyword_of(word: &[u8]) -> Option<Keyword>
    ensures { result ≡ keyword_of word.now }
{
    if word == b"rate".as_slice() {
        return Some(Keyword::Rate);
    }
    if word == b"source".as_slice() {
        return Some(Keyword::Source);
    }
    if word == b"input".as_slice() {
        return Some(Keyword::Input);
    }
    if word == b"r".as_slice() {
        return Some(Keyword::Resistor);
    }
    if word == b"l".as_slice() {
        return Some(Keyword::Inductor);
    }
    if word == b"c".as_slice() {
        return Some(Keyword::Capacitor);
    }
    if word == b"load".as_slice() {
        return Some(Keyword::Load);
    }
    if word == b"root".as_slice() {
        return Some(Keyword::Root);
    }
    if word == b"shallow".as_slice() {
        return Some(Keyword::Shallow);
    }
    if word == b"lattice".as_slice() {
        return Some(Keyword::Lattice);
    }
    if word == b"branch".as_slice() {
        return Some(Keyword::Branch);
    }
    None
}
