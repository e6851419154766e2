//! The pieces of JSON, each appended to the output.
ghost use Rattle.std.specs.Prelude.{◌≡◌, ◌+◌, ◌<◌, ◌≤◌, [], ◌∷◌, ◌++◌, OnOk, length, take, drop};
ghost use Rattle.std.specs.List.{flat_map};
ghost use Rattle.px_text.specs.Text.{comma_before, escaped, hex_digit, hex_of, hexadecimal, in_quotes, quoted};

use std::alloc::AllocError;

fn hex_digit(value: u8) -> u8
    requires { value < 16 }
    ensures { result ≡ hex_digit value }
{
    if value < 10 {
        b'0' + value
    } else {
        b'a' - 10 + value
    }
}

fn push_hex(out: &mut Vec<u8>, byte: u8) -> Result<(), AllocError>
    ensures { OnOk result (out.new.items ≡ out.old.items ++ hex_of byte) }
{
    out.extend_from_slice(&[hex_digit(byte / 16), hex_digit(byte % 16)])
}

/// Appends a byte as it stands in a quoted text (RFC 8259): a quotation mark, a backslash and the bytes
/// below 32 by an escape, and every other byte as it is.
fn push_escape(out: &mut Vec<u8>, byte: u8) -> Result<(), AllocError>
    ensures { OnOk result (out.new.items ≡ out.old.items ++ escaped byte) }
{
    match byte {
        b'"' => out.extend_from_slice(b"\\\""),
        b'\\' => out.extend_from_slice(b"\\\\"),
        8 => out.extend_from_slice(b"\\b"),
        b'\t' => out.extend_from_slice(b"\\t"),
        b'\n' => out.extend_from_slice(b"\\n"),
        12 => out.extend_from_slice(b"\\f"),
        b'\r' => out.extend_from_slice(b"\\r"),
        0..=31 => {
            out.extend_from_slice(b"\\u00")?;
            push_hex(out, byte)
        }
        _ => out.extend_from_slice(&[byte]),
    }
}

/// How many bytes at the front stand for themselves in a quoted text.
fn plain_len(bytes: &[u8]) -> usize
    ensures within { result ≤ length bytes.now }
    ensures plain { flat_map escaped bytes.now ≡ take result bytes.now ++ flat_map escaped (drop result bytes.now) }
{
    for (i, byte) in bytes.iter().enumerate() {
        if *byte < 32 || *byte == b'"' || *byte == b'\\' {
            return i;
        }
    }
    bytes.len()
}

fn push_escaped(out: &mut Vec<u8>, text: &[u8]) -> Result<(), AllocError>
    ensures { OnOk result (out.new.items ≡ out.old.items ++ flat_map escaped text.now) }
{
    let mut rest = text;
    while !rest.is_empty() {
        let len = plain_len(rest);
        out.extend_from_slice(&rest[..len])?;
        rest = &rest[len..];
        if let Some((first, others)) = rest.split_first() {
            push_escape(out, *first)?;
            rest = others;
        }
    }
    Ok(())
}

/// Appends a text as a JSON string.
pub(crate) fn push_quoted(out: &mut Vec<u8>, text: &str) -> Result<(), AllocError>
    ensures { OnOk result (out.new.items ≡ out.old.items ++ quoted text.now) }
{
    out.push(b'"')?;
    push_escaped(out, text.as_bytes())?;
    out.push(b'"')?;
    Ok(())
}

/// Appends bytes as a JSON string of hexadecimal digits.
pub(crate) fn push_hexadecimal(out: &mut Vec<u8>, bytes: &[u8]) -> Result<(), AllocError>
    ensures { OnOk result (out.new.items ≡ out.old.items ++ hexadecimal bytes.now) }
{
    out.push(b'"')?;
    for byte in bytes {
        push_hex(out, *byte)?;
    }
    out.push(b'"')?;
    Ok(())
}

/// Appends a comma, unless the item that follows is the first.
#[inline(always)]
pub(crate) fn push_comma(out: &mut Vec<u8>, index: usize) -> Result<(), AllocError>
    ensures { OnOk result (out.new.items ≡ out.old.items ++ comma_before index) }
{
    if index > 0 {
        out.push(b',')?;
    }
    Ok(())
}
