//! Reading bytes that are written in hexadecimal.
ghost use Rattle.std.specs.Prelude.{◌≡◌, ◌<◌, IfSome};
ghost use Rattle.px_document.specs.Document.{bytes_of_hex, hex_byte, hex_value};
ghost use Rattle.px_document.specs.Form.{ReadsBy};

use crate::document::fault::DocumentFault;
use std::alloc::Global;

fn hex_value(digit: u8) -> Option<u8>
    ensures value { result ≡ hex_value digit }
    ensures small { IfSome result (λ n. n < 16) }
{
    match digit {
        b'0'..=b'9' => Some(digit - b'0'),
        b'a'..=b'f' => Some(digit - b'a' + 10),
        _ => None,
    }
}

fn hex_byte(high: u8, low: u8) -> Option<u8>
    ensures { result ≡ hex_byte high low }
{
    let high = hex_value(high)?;
    let low = hex_value(low)?;
    Some(16 * high + low)
}

/// The bytes of a text of an even number of digits 0-9a-f, two a byte.
pub(crate) fn read_hexadecimal(alloc: Global, text: &[u8]) -> Result<Vec<u8>, DocumentFault>
    ensures { ReadsBy (λ v. v.items) result (bytes_of_hex text.now) }
{
    let mut bytes = Vec::with_capacity(alloc, text.len() / 2)?;
    let mut i = 0;
    while text.len() - i >= 2 {
        let byte = hex_byte(text[i], text[i + 1]).ok_or(DocumentFault::BadDocument)?;
        bytes.push(byte)?;
        i += 2;
    }
    if i < text.len() {
        return Err(DocumentFault::BadDocument);
    }
    Ok(bytes)
}
