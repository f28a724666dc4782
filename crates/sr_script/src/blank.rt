//! Blanks, and the end of a line.

ghost use Rattle.std.specs.Prelude.{◌≡◌};
ghost use Rattle.sr_script.specs.Words.{is_blank as blank_test, without_return as return_dropped};

/// Whether the byte is a space or a tab.
pub(crate) fn is_blank(byte: u8) -> bool
    ensures { result ≡ blank_test byte }
{
    byte == b' ' || byte == b'\t'
}

/// The line without the one carriage return that may end it.
pub(crate) fn without_return(line: &[u8]) -> &[u8]
    ensures { result.now ≡ return_dropped line.now }
{
    if line.is_empty() {
        return line;
    }
    let last = line.len() - 1;
    if line[last] == b'\r' {
        &line[..last]
    } else {
        line
    }
}
