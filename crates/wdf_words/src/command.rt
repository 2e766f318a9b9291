ghost use Rattle.std.specs.Prelude.{◌≡◌};
ghost use Rattle.wdf_words.specs.Operands.{command_named};

/// What the program is asked to do: the first word.
#[derive(Clone, Copy, Debug, PartialEq, Eq)]
pub enum Command {
    /// Filters a wave by a netlist.
    Run,
    /// Writes the report of a netlist.
    Report,
    /// Writes the certificate of a netlist.
    Certify,
    /// Checks a certificate against a netlist.
    Check,
    /// Filters a wave that the program makes, by a netlist that it makes.
    Soak,
}

/// The command of this name.
pub(crate) fn command_named(name: &str) -> Option<Command>
    ensures { result ≡ command_named name.now }
{
    match name {
        "run" => Some(Command::Run),
        "report" => Some(Command::Report),
        "certify" => Some(Command::Certify),
        "check" => Some(Command::Check),
        "soak" => Some(Command::Soak),
        _ => None,
    }
}
