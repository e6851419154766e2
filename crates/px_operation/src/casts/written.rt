//! The numbers that texts write.
ghost use Rattle.std.specs.Prelude.{◌≡◌, ◌<◌, ◌^◌, option_map};
ghost use Rattle.px_operation.specs.Cast.{natural_of, number_written};
ghost use Rattle.px_operation.specs.Written.{folded, folded_number};

/// The number itself below 2^64, else 2^64 and its 64 low bits: no cast tells the two apart.
#[tactic(auto, using(crate::proofs::Written::folded_lt))]
fn fold(n: u128) -> u128
    ensures value { result ≡ folded n }
    ensures small { result < 2 ^ 65 }
{
    let over = 1 << 64;
    if n < over { n } else { over + n % over }
}

/// The number that one decimal digit or more write, folded.
fn natural(digits: &[u8]) -> Option<u128>
    ensures { result ≡ option_map folded (natural_of digits.now) }
{
    if digits.is_empty() {
        return None;
    }
    let mut number = 0;
    for digit in digits {
        if !digit.is_ascii_digit() {
            return None;
        }
        number = fold(number * 10 + (*digit - b'0') as u128);
    }
    Some(number)
}

/// The number that such digits write, folded, where a minus may stand first.
pub(super) fn number_written(text: &[u8]) -> Option<i128>
    ensures { result ≡ option_map folded_number (number_written text.now) }
{
    match text.split_first() {
        Some((b'-', digits)) => Some(-(natural(digits)? as i128)),
        _ => Some(natural(text)? as i128),
    }
}
