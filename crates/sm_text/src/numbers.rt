//! Numbers.

ghost use Rattle.std.specs.Prelude.{◌≡◌, ◌≤ℤ◌, ◌&&◌, if◌then◌else◌, pos, nat_le};
ghost use Rattle.std.specs.List.{list_all};
ghost use Rattle.std.specs.Int.RustNames.{unsigned_abs};
ghost use Rattle.sm_text.specs.Name.{is_digit};
ghost use Rattle.sm_text.specs.Numbers.{number_of, signed_of, value_of};

/// The number that a run spells: `0`, or a digit 1 to 9 followed by digits. `None` exactly where the run doesn't spell
/// one, or where its value is above `most`.
///
/// It takes time in the length of the run, and no memory.
pub fn number(run: &[u8], most: u64) -> Option<u64>
    ensures { result ≡ number_of run.now most }
{
    match run {
        [b'0'] => Some(0),
        [b'0', ..] | [] => None,
        digits => value(digits, most),
    }
}

/// The signed number that a run spells: a number, or `-` followed by a number that isn't `0`. `None` exactly where the
/// run doesn't spell one, or where its size is above `most`, which has to be at least 0.
///
/// It takes time in the length of the run, and no memory.
pub fn signed(run: &[u8], most: i64) -> Option<i64>
    requires { pos 0 ≤ℤ most }
    ensures { result ≡ signed_of run.now (unsigned_abs most) }
{
    match run {
        [b'-', size @ ..] => match number(size, most.unsigned_abs())? {
            0 => None,
            size => Some(-(size as i64)),
        },
        _ => Some(number(run, most.unsigned_abs())? as i64),
    }
}

/// The value of digits, and `None` exactly where one of the bytes is no digit or the value is above `most`.
fn value(digits: &[u8], most: u64) -> Option<u64>
    ensures { result ≡ (if list_all is_digit digits.now && nat_le (value_of digits.now) most
        then Some (value_of digits.now) else None) }
{
    let mut value = 0;
    for b in digits {
        if !b.is_ascii_digit() {
            return None;
        }
        let digit = u64::from(*b - b'0');
        if digit > most || value > (most - digit) / 10 {
            return None;
        }
        value = 10 * value + digit;
    }
    Some(value)
}
