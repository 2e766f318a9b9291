/// What is wrong with a netlist's text.
///
/// First come the faults of a line, then those of the whole text; `docs/netlist.md` says where each
/// stands and in which order they are looked at.
#[derive(Clone, Copy, Debug, PartialEq, Eq)]
pub enum NetKind {
    /// The first word is no keyword, or the line may not stand here, or a word is missing or left
    /// over.
    Syntax,
    /// A second `rate`.
    DoubleRate,
    /// A second `source`.
    DoubleSource,
    /// A second `load`.
    DoubleLoad,
    /// A second `root` or `shallow` in the circuit.
    DoubleRoot,
    /// An `input` before `source`.
    InputFirst,
    /// The rate is no whole number in 1..=1,000,000.
    RateRange,
    /// A name is not 1 to 16 ASCII letters, digits and `_`.
    BadName,
    /// An element of the circuit has this name already.
    DoubleName,
    /// The element runs from a node to the same node.
    Shorted,
    /// The value's number is no decimal, or the value is out of range.
    BadValue,
    /// What stands behind the value's number is no unit.
    UnknownUnit,
    /// The value is 0.
    ZeroValue,
    /// The element would be the 129th of the circuit.
    TooManyElements,
    /// The capacitor or inductor would be the 65th of the circuit.
    TooManyStates,
    /// The source would be the ninth of the circuit.
    TooManyInputs,
    /// There is no `rate`.
    NoRate,
    /// A ladder has no `source`.
    NoSource,
    /// A ladder has no `load`.
    NoLoad,
    /// The load names no element.
    LoadUnknown,
    /// The load names an element that is no resistor.
    LoadNotResistor,
    /// A root names no element of its circuit.
    RootUnknown,
    /// A lattice lacks a `branch`.
    NoBranch,
    /// A branch has no element but its source.
    EmptyBranch,
}
