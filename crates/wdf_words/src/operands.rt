//! The table of operands: what the values of each may be.

ghost use Rattle.std.specs.Prelude.{◌≡◌, ◌∷◌, []};
ghost use Rattle.std.specs.List.{list_any};
ghost use Rattle.wdf_words.specs.Operands.{amp, frames, guard, k, named, net, operand_named, operands_of, order, seed, shift, soak_frames, values_of};
ghost use Rattle.wdf_words.specs.Orders.{is_missing, texts};

use crate::Command;
use crate::given::is_given;
use crate::values::Values;

// Those of a command that builds a network.
fn network_values(name: &str) -> Option<Values>
    ensures { result ≡ values_of (named (net ∷ k ∷ []) name.now) }
{
    match name {
        "net" => Some(Values::Text),
        "k" => Some(Values::Between { least: 1, most: 20 }),
        _ => None,
    }
}

// Those of a command that plans a run.
fn run_values(name: &str) -> Option<Values>
    ensures { result ≡ values_of (named (net ∷ k ∷ guard ∷ shift ∷ frames ∷ amp ∷ []) name.now) }
{
    match name {
        "guard" | "shift" => Some(Values::Between { least: 0, most: 16 }),
        "frames" => Some(Values::Between {
            least: 1,
            most: 4_294_967_295,
        }),
        "amp" => Some(Values::Between {
            least: 1,
            most: 2_147_483_648,
        }),
        _ => network_values(name),
    }
}

fn soak_values(name: &str) -> Option<Values>
    ensures { result ≡ values_of (named (seed ∷ order ∷ soak_frames ∷ []) name.now) }
{
    match name {
        "seed" => Some(Values::Between {
            least: 0,
            most: u64::MAX,
        }),
        "order" => Some(Values::Between { least: 1, most: 32 }),
        "frames" => Some(Values::Between {
            least: 1,
            most: 4_194_304,
        }),
        _ => None,
    }
}

/// What the values of the command's operand of this name may be; None where it has none.
pub(crate) fn values_of(command: Command, name: &str) -> Option<Values>
    ensures { result ≡ values_of (operand_named command name.now) }
{
    match command {
        Command::Run => run_values(name),
        Command::Report if name == "bits" => Some(Values::SampleWidth),
        Command::Report => run_values(name),
        Command::Certify => network_values(name),
        Command::Check if name == "cert" => Some(Values::Text),
        Command::Check => network_values(name),
        Command::Soak => soak_values(name),
    }
}

/// Whether an operand that the command needs is not given.
pub(crate) fn lacks_operand(command: Command, words: &[String]) -> bool
    ensures { result ≡ list_any (is_missing (texts words.now)) (operands_of command) }
{
    match command {
        Command::Run | Command::Report | Command::Certify => !is_given(words, "net"),
        Command::Check => !is_given(words, "net") || !is_given(words, "cert"),
        Command::Soak => {
            !is_given(words, "seed") || !is_given(words, "order") || !is_given(words, "frames")
        }
    }
}
