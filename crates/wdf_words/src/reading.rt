//! From the words to what they ask for.

ghost use Rattle.std.specs.Prelude.{◌≡◌, ◌≤◌, IfOk, IfSome, Some};
ghost use Rattle.wdf_words.specs.Operands.{command_named};
ghost use Rattle.wdf_words.specs.Orders.{HasRanges, NamesFiles, first_fault, number_given, order_by, order_given, order_of, texts, word_at, word_fault};
ghost use Rattle.wdf_words.specs.WellFormed.{HaveRoom};

use crate::command::command_named;
use crate::given::{is_given, number_given, place_given};
use crate::operands::{lacks_operand, values_of};
use crate::word::{has_equals, name_in, value_in};
use crate::{Command, Order, UsageFault};
use wdf_report::UsageKind;

// What is wrong with a word behind those before it.
fn word_fault(command: Command, before: &[String], word: &str) -> Option<UsageKind>
    ensures { result ≡ word_fault command (texts before.now) word.now }
{
    if !has_equals(word) {
        return Some(UsageKind::NoEquals);
    }
    let Some(values) = values_of(command, name_in(word)) else {
        return Some(UsageKind::UnknownOperand);
    };
    if is_given(before, name_in(word)) {
        return Some(UsageKind::DoubleOperand);
    }
    if value_in(word).is_empty() {
        return Some(UsageKind::EmptyValue);
    }
    values.fault(value_in(word))
}

// The fault of the first word behind the command that has one.
fn first_fault(command: Command, words: &[String]) -> Option<UsageFault>
    ensures { result ≡ first_fault command (texts words.now) }
{
    for at in 1..words.len() {
        if let Some(kind) = word_fault(command, &words[..at], &words[at]) {
            return Some(UsageFault { word: at, kind });
        }
    }
    None
}

// The number of the operand of this name, which fits a byte.
fn byte_given(words: &[String], name: &str) -> Option<u8>
    requires { IfSome (number_given name.now (texts words.now)) (λ n. n ≤ 255) }
    ensures { result ≡ number_given name.now (texts words.now) }
{
    Some(number_given(words, name)? as u8)
}

// The number of the operand of this name, which fits 32 bits.
fn count_given(words: &[String], name: &str) -> Option<u32>
    requires { IfSome (number_given name.now (texts words.now)) (λ n. n ≤ 4294967295) }
    ensures { result ≡ number_given name.now (texts words.now) }
{
    Some(number_given(words, name)? as u32)
}

// What words without fault ask for.
fn order_given(command: Command, words: &[String]) -> Order
    requires { HaveRoom (texts words.now) }
    ensures { result ≡ order_given command (texts words.now) }
{
    Order {
        command,
        net: place_given(words, "net"),
        cert: place_given(words, "cert"),
        k: byte_given(words, "k").unwrap_or(14),
        guard: byte_given(words, "guard"),
        shift: byte_given(words, "shift").unwrap_or(0),
        frames: count_given(words, "frames").unwrap_or(67_108_864),
        amp: count_given(words, "amp"),
        bits: byte_given(words, "bits").unwrap_or(16),
        seed: number_given(words, "seed").unwrap_or(0),
        order: byte_given(words, "order").unwrap_or(0),
    }
}

// What the words of this command ask for.
fn order_by(command: Command, words: &[String]) -> Result<Order, UsageFault>
    requires { command_named (word_at (texts words.now) 0) ≡ Some command }
    ensures order { result ≡ order_by (Some command) (texts words.now) }
    ensures ranges { IfOk result HasRanges }
    ensures files { IfOk result (NamesFiles (texts words.now)) }
{
    if let Some(fault) = first_fault(command, words) {
        return Err(fault);
    }
    if lacks_operand(command, words) {
        return Err(UsageFault {
            word: words.len(),
            kind: UsageKind::MissingOperand,
        });
    }
    Ok(order_given(command, words))
}

/// What the words of the command line, those behind the program's name, ask for.
///
/// The first word is the command; each further word is `name=value`, cut at its first `=`, in any
/// order, each name once. It takes no memory.
///
/// # Errors
///
/// The first word with a fault, and the first of its faults in the order of [`UsageKind`]; where no
/// word has one, `MissingOperand` at the number of words.
pub fn read_words(words: &[String]) -> Result<Order, UsageFault>
    ensures order { result ≡ order_of (texts words.now) }
    ensures ranges { IfOk result HasRanges }
    ensures files { IfOk result (NamesFiles (texts words.now)) }
{
    let Some(first) = words.first() else {
        return Err(UsageFault {
            word: 0,
            kind: UsageKind::NoCommand,
        });
    };
    let Some(command) = command_named(first) else {
        return Err(UsageFault {
            word: 0,
            kind: UsageKind::UnknownCommand,
        });
    };
    order_by(command, words)
}
