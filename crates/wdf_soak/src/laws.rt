//! What the definitions of `specs/` imply: each function is a law, whose contract is proved and
//! whose body only calls laws of the crates below.

ghost use Rattle.wdf_soak.specs.SoakLaws.{HasOneSoak};

/// A seed, an order and frames leave one answer to a soak but for want of memory: one summary or one
/// refusal, and not both.
pub fn one_soak()
    ensures { HasOneSoak }
{
    wdf_stages::laws::one_design();
    wdf_stages::laws::one_bound();
    wdf_cert::laws::one_making();
}
