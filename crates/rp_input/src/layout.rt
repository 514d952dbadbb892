//! How the text of a CSV is laid out.
ghost use Rattle.std.specs.Prelude.{◌≡◌};
ghost use Rattle.rp_input.specs.Layouts as spec;

/// How the text of a CSV is laid out.
#[derive(Clone, Copy, PartialEq, Eq)]
pub struct CsvLayout {
    /// What stands between two fields of a record. Any byte is taken; one that is no delimiter by `is_delimiter` has another
    /// meaning in a CSV, or is a piece of a character, and the text is then not read as its writer meant it.
    pub delimiter: u8,
    /// Whether the first record names the fields of those below it.
    pub has_header: bool,
}

impl CsvLayout {
    /// Commas between fields, below a header.
    pub fn plain() -> CsvLayout
        ensures { result ≡ spec.plain_layout }
    {
        CsvLayout {
            delimiter: b',',
            has_header: true,
        }
    }
}

/// Whether a byte may be asked for as a delimiter: `;` and a tab may, a quote and a line's end may not.
pub fn is_delimiter(byte: u8) -> bool
    ensures { result ≡ spec.is_delimiter byte }
{
    byte < 128 && !(byte == b'"') && !(byte == b'\n') && !(byte == b'\r')
}
