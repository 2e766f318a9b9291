// What is asked of an element's kind.
#[derive(Clone, Copy)]
pub(crate) enum Role {
    // A resistor.
    Resistor,
    // A capacitor or an inductor.
    Reactance,
    // A resistor or a source.
    Absorbing,
    // A source.
    Source,
}
