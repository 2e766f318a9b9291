//! What the definitions of `specs/` imply: each function is a law, whose contract is proved and
//! whose body is empty.

ghost use Rattle.wdf_words.specs.Meanings.{HasOneMeaning};
ghost use Rattle.wdf_words.specs.Orders.{texts};

/// Each list of words means one thing and no other: what it asks for, or its first fault. It is told
/// by conditions on all words, with no search: in an order no word has a fault; a fault is that of a
/// word before which no word has one.
#[tactic(auto, using(crate::proofs::MeaningLemmas::one_meaning))]
pub fn one_meaning(words: &[String])
    ensures { HasOneMeaning (texts words.now) }
{}
