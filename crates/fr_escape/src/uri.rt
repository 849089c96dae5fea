// Paths in a URI.
ghost use Rattle.std.specs.Prelude.{◌≡◌, ◌++◌, All, OnOk, string_bytes};
ghost use Rattle.fr_escape.specs.Uri.{stays, uri, uri_byte, IsUriByte};

use std::alloc::AllocError;

/// The marks that are written as themselves.
const MARKS: &str = "-._~/!$&'()*+,;=@";

/// Whether the byte is written as itself.
fn stays(byte: u8) -> bool
    ensures { result ≡ stays byte }
{
    byte.is_ascii_alphanumeric() || MARKS.as_bytes().contains(&byte)
}

/// Appends what is written for the byte.
fn push_byte(out: &mut String, byte: u8) -> Result<(), AllocError>
    ensures { OnOk result (string_bytes out.new ≡ string_bytes out.old ++ uri_byte byte) }
{
    if stays(byte) {
        out.push(byte as char)
    } else {
        write!(out, "%{byte:02X}")
    }
}

/// Appends a path, as it is written in a URI: letters, digits, `/` and the marks ``- . _ ~ ! $ & ' ( ) * + , ; = @``
/// stay, and each other byte becomes `%` with two digits in upper case. The rule is RFC 3986's for the parts of a
/// path; a `:`, which may not be in the first part of a relative path, is escaped everywhere. Its error is that an allocation was refused. A
/// part of the path may then have been appended.
pub fn push_uri(out: &mut String, path: &str) -> Result<(), AllocError>
    ensures text { OnOk result (string_bytes out.new ≡ string_bytes out.old ++ uri path.now) }
    ensures harmless { All IsUriByte (uri path.now) }
{
    for byte in path.as_bytes() {
        push_byte(out, *byte)?;
    }
    Ok(())
}
