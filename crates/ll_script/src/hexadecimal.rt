//! Bytes that a text spells by two hexadecimal digits each.
ghost use Rattle.std.specs.Prelude.{◌≡◌, IfOk, IsSome, Some, is_some};
ghost use Rattle.std.specs.List.{list_all};
ghost use Rattle.ll_script.specs.Hex.{bytes_in_hex, hex_digit};

use std::alloc::{AllocError, Global};

/// Returns whether `text` spells bytes, by two hexadecimal digits each.
pub(crate) fn is_hex(text: &str) -> bool
    ensures { result ≡ is_some (bytes_in_hex text.now) }
{
    text.len() % 2 == 0 && all_digits(text)
}

/// Returns whether each byte of `text` is a hexadecimal digit.
fn all_digits(text: &str) -> bool
    ensures { result ≡ list_all (λ b. is_some (hex_digit b)) text.now }
{
    text.bytes().all(|b| digit(b).is_some())
}

/// Returns the bytes that `text` spells, by two hexadecimal digits each. It allocates once.
pub(crate) fn read_hex(alloc: Global, text: &str) -> Result<Vec<u8>, AllocError>
    requires { IsSome (bytes_in_hex text.now) }
    ensures { IfOk result (λ bytes. bytes_in_hex text.now ≡ Some bytes.items) }
{
    let mut bytes = Vec::with_capacity(alloc, text.len() / 2)?;
    // Each byte of the text is a digit, so no pair falls back to 0.
    for pair in text.as_bytes().chunks_exact(2) {
        let high = digit(pair[0]).unwrap_or(0);
        let low = digit(pair[1]).unwrap_or(0);
        bytes.push_reserved(16 * high + low);
    }
    Ok(bytes)
}

/// Returns the value of a hexadecimal digit: 0 to 9, or a to f in lower case alone.
fn digit(byte: u8) -> Option<u8>
    ensures { result ≡ hex_digit byte }
{
    match byte {
        b'0'..=b'9' => Some(byte - b'0'),
        b'a'..=b'f' => Some(byte - b'a' + 10),
        _ => None,
    }
}
