//! Bytes as a table writes them.

use std::alloc::AllocError;

/// What the bytes read so far leave open.
#[derive(Clone, Copy)]
enum Open {
    Nothing,
    /// A backslash.
    Escape,
    /// A backslash and an `x`.
    Byte,
    /// These, and the upper half of a byte.
    Half(u32),
}

/// Puts the bytes that a value stands for, and a newline. `\n`, `\r`, `\t`, `\s` and `\\` are a newline, a return, a tab, a space and
/// a backslash, `\e` is nothing, `\x7e` is the byte 7e, and a backslash at the end takes the newline away. None for another escape.
pub fn put(out: &mut Vec<u8>, value: &str) -> Result<Option<()>, AllocError> {
    let mut open = Open::Nothing;
    for byte in value.bytes() {
        match read(open, byte) {
            Some((next, put)) => {
                open = next;
                if let Some(byte) = put {
                    out.push(byte)?;
                }
            }
            None => return Ok(None),
        }
    }
    match open {
        Open::Nothing => out.push(b'\n')?,
        Open::Escape => {}
        Open::Byte | Open::Half(_) => return Ok(None),
    }
    Ok(Some(()))
}

/// What a byte leaves open, and the byte that is put.
fn read(open: Open, byte: u8) -> Option<(Open, Option<u8>)> {
    match (open, byte) {
        (Open::Nothing, b'\\') => Some((Open::Escape, None)),
        (Open::Nothing, _) => Some((Open::Nothing, Some(byte))),
        (Open::Escape, b'x') => Some((Open::Byte, None)),
        (Open::Escape, b'e') => Some((Open::Nothing, None)),
        (Open::Escape, _) => Some((Open::Nothing, Some(escaped(byte)?))),
        (Open::Byte, _) => Some((Open::Half(char::from(byte).to_digit(16)?), None)),
        (Open::Half(upper), _) => {
            let whole = upper
                .checked_mul(16)?
                .checked_add(char::from(byte).to_digit(16)?)?;
            Some((Open::Nothing, Some(u8::try_from(whole).ok()?)))
        }
    }
}

/// The byte that a backslash and this one stand for.
fn escaped(byte: u8) -> Option<u8> {
    match byte {
        b'n' => Some(b'\n'),
        b'r' => Some(b'\r'),
        b't' => Some(b'\t'),
        b's' => Some(b' '),
        b'\\' => Some(b'\\'),
        _ => None,
    }
}
