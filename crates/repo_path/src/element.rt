//! One element of a path, which is also a name in a directory.
ghost use Rattle.std.specs.Prelude.{◌≡◌, not, ◌&&◌, ◌==◌};
ghost use Rattle.std.specs.List.{list_all};
ghost use Rattle.byte_fields.specs.Bytes.{is_line as is_text_line};
ghost use Rattle.changeset_model.specs.Path.{is_element as is_path_element};

use byte_fields::is_text;

/// Whether bytes are an element: 1 to 255 bytes of UTF-8 without the bytes 00 and 0A and the slash, and neither `.` nor
/// `..`.
pub fn is_element(bytes: &[u8]) -> bool
    ensures { result ≡ is_path_element bytes.now }
{
    !bytes.is_empty()
        && bytes.len() <= 255
        && is_line(bytes)
        && has_no_slash(bytes)
        && bytes != b".".as_slice()
        && bytes != b"..".as_slice()
}

fn is_line(bytes: &[u8]) -> bool
    ensures { result ≡ is_text_line bytes.now }
{
    is_text(bytes) && is_unbroken(bytes)
}

fn is_unbroken(bytes: &[u8]) -> bool
    ensures { result ≡ list_all (λ b. not (b == 0x00) && not (b == 0x0A)) bytes.now }
{
    bytes.iter().all(|b| *b != 0 && *b != b'\n')
}

fn has_no_slash(bytes: &[u8]) -> bool
    ensures { result ≡ list_all (λ b. not (b == 0x2F)) bytes.now }
{
    bytes.iter().all(|b| *b != b'/')
}
