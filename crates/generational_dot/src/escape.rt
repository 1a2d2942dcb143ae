//! Escaping of texts.

ghost use Rattle.std.specs.Prelude.{◌≡◌, ◌++◌, OnOk};
ghost use Rattle.generational_dot.specs.Texts.{escaped, escaped_byte};

use std::alloc::AllocError;

/// Appends a text for a place between double quotes in DOT: a quote, a backslash and an ampersand are
/// escaped, a line end becomes `\n`, and any other control character a space.
pub(crate) fn push_escaped(out: &mut Vec<u8>, text: &str) -> Result<(), AllocError>
    ensures { OnOk result (out.new.items ≡ out.old.items ++ escaped text.now) }
{
    for byte in text.as_bytes() {
        push_byte(out, *byte)?;
    }
    Ok(())
}

// Appends a byte of a text.
fn push_byte(out: &mut Vec<u8>, byte: u8) -> Result<(), AllocError>
    ensures { OnOk result (out.new.items ≡ out.old.items ++ escaped_byte byte) }
{
    match byte {
        b'"' => out.extend_from_slice(b"\\\""),
        b'\\' => out.extend_from_slice(b"\\\\"),
        b'&' => out.extend_from_slice(b"&amp;"),
        b'\n' => out.extend_from_slice(b"\\n"),
        0..=31 | 127 => out.extend_from_slice(b" "),
        _ => out.extend_from_slice(&[byte]),
    }
}
