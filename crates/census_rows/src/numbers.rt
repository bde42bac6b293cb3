//! Numbers of fields: decimal, without leading zeros.
ghost use Rattle.std.specs.Prelude.{◌≡◌, ◌<◌, ◌^◌, ℕ, Some, IfSome, decimal, FitsSigned, ℤ};
ghost use Rattle.std.specs.Int.{w64};
ghost use Rattle.std.specs.Fmt.{signed_decimal};

use itoa::Buffer;

/// The number that has this text, if there is one.
pub fn number_of(field: &[u8]) -> Option<u64>
    ensures some { IfSome result (λ n. (n < 2 ^ 64) × (field.now ≡ decimal n)) }
    ensures all { (n : ℕ) → n < 2 ^ 64 → field.now ≡ decimal n → result ≡ Some n }
{
    let Ok(text) = str::from_utf8(field) else {
        return None;
    };
    let Ok(number) = text.parse::<u64>() else {
        return None;
    };
    let mut buffer = Buffer::new();
    if buffer.format(number).as_bytes() == field {
        Some(number)
    } else {
        None
    }
}

/// The signed number that has this text, if there is one.
pub fn signed_of(field: &[u8]) -> Option<i64>
    ensures some { IfSome result (λ n. FitsSigned w64 n × (field.now ≡ signed_decimal n)) }
    ensures all { (n : ℤ) → FitsSigned w64 n → field.now ≡ signed_decimal n → result ≡ Some n }
{
    let Ok(text) = str::from_utf8(field) else {
        return None;
    };
    let Ok(number) = text.parse::<i64>() else {
        return None;
    };
    let mut buffer = Buffer::new();
    if buffer.format(number).as_bytes() == field {
        Some(number)
    } else {
        None
    }
}
