//! The numbers of a map.

ghost use Rattle.std.specs.Prelude.{◌≡◌};
ghost use Rattle.explain_lines.specs.Stamp.{number_of, log_of};

/// The number of decimal digits, below 2^64. A sign is no digit.
pub(crate) fn number_of(digits: &str) -> Option<u64>
    ensures { result ≡ number_of digits.now }
{
    if digits.starts_with('+') {
        return None;
    }
    digits.parse().ok()
}

/// The log of this number.
pub(crate) fn log_of(digits: &str) -> Option<u8>
    ensures { result ≡ log_of digits.now }
{
    let number = number_of(digits)?;
    if number < 256 {
        Some(number as u8)
    } else {
        None
    }
}
