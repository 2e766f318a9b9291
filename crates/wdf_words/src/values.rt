ghost use Rattle.std.specs.Prelude.{◌≡◌};
ghost use Rattle.wdf_bounds.specs.Plans.{is_sample_width};
ghost use Rattle.wdf_words.specs.Operands.{is_between, number_fault, value_fault};

use wdf_report::UsageKind;
use wdf_text::whole;

/// What the value of an operand may be.
#[derive(Clone, Copy, Debug, PartialEq, Eq)]
pub enum Values {
    /// A text that is not empty.
    Text,
    /// A number in this range, both ends included.
    Between { least: u64, most: u64 },
    /// The width of a sample: 8, 16, 24 or 32 bits.
    SampleWidth,
}

// What is wrong with a value that is to be a number in this range.
fn range_fault(value: &str, least: u64, most: u64) -> Option<UsageKind>
    ensures { result ≡ number_fault (is_between least most) value.now }
{
    let Some(number) = whole(value.as_bytes()) else {
        return Some(UsageKind::BadNumber);
    };
    if number < least || number > most {
        return Some(UsageKind::OutOfRange);
    }
    None
}

// What is wrong with a value that is to be the width of a sample.
fn width_fault(value: &str) -> Option<UsageKind>
    ensures { result ≡ number_fault is_sample_width value.now }
{
    match whole(value.as_bytes()) {
        Some(8 | 16 | 24 | 32) => None,
        Some(_) => Some(UsageKind::OutOfRange),
        None => Some(UsageKind::BadNumber),
    }
}

impl Values {
    /// What is wrong with a value that is not empty.
    pub fn fault(&self, value: &str) -> Option<UsageKind>
        ensures { result ≡ value_fault self.now value.now }
    {
        match self {
            Values::Text => None,
            Values::Between { least, most } => range_fault(value, *least, *most),
            Values::SampleWidth => width_fault(value),
        }
    }
}
