//! Values that are numbers.

ghost use Rattle.std.specs.Prelude.{◌≡◌};
ghost use Rattle.engine.specs.Number.{number_of};
ghost use Rattle.engine.specs.Change.{changed_by};

/// The longest value that is read as a number, in bytes.
pub const MAX_DIGITS: usize = 20;

/// The number that the value writes in 1 to 20 digits, also with leading zeros. None if it is 2^64
/// or more, or the value is no number.
pub fn number_of(value: &[u8]) -> Option<u64>
    ensures { result ≡ number_of value.now }
{
    if value.is_empty() || value.len() > MAX_DIGITS {
        return None;
    }
    let mut n: u64 = 0;
    for byte in value {
        if !byte.is_ascii_digit() {
            return None;
        }
        n = n.checked_mul(10)?.checked_add(u64::from(*byte - b'0'))?;
    }
    Some(n)
}

/// What is done to a number.
#[derive(Clone, Copy)]
pub enum Change {
    /// Adds modulo 2^64.
    Add(u64),
    /// Subtracts, and stops at 0.
    Subtract(u64),
}

impl Change {
    pub fn applied_to(self, n: u64) -> u64
        ensures { result ≡ changed_by self n }
    {
        match self {
            Change::Add(amount) => n.wrapping_add(amount),
            Change::Subtract(amount) => n.saturating_sub(amount),
        }
    }
}
