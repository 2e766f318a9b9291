//! The words of a seed.

ghost use Rattle.std.specs.Prelude.{◌≡◌};
ghost use Rattle.wdf_made.specs.Generator.{behind_word, behind_words, generator_of, next_word};

use rand_core::utils::NextWord;
use rand_pcg::Lcg64Xsh32;

// The generator of a seed.
#[tactic(auto, unfolding(crate::specs::Generator::generator_of))]
pub(crate) fn generator_of(seed: u64) -> Lcg64Xsh32
    ensures { result ≡ generator_of seed }
{
    Lcg64Xsh32::new(seed, 1)
}

// Its next word.
#[tactic(auto, unfolding(crate::specs::Generator::next_word, crate::specs::Generator::behind_word))]
pub(crate) fn next_word(generator: &mut Lcg64Xsh32) -> u32
    ensures word { result ≡ next_word generator.old }
    ensures behind { generator.new ≡ behind_word generator.old }
{
    generator.next_word()
}

// The generator of a seed behind so many words.
#[tactic(auto, using(crate::proofs::WordLemmas::behind_more))]
pub(crate) fn behind_words(seed: u64, words: u8) -> Lcg64Xsh32
    ensures { result ≡ behind_words seed words }
{
    let mut generator = generator_of(seed);
    for _ in 0..words {
        next_word(&mut generator);
    }
    generator
}
