//! Where a text ends, as far as the quotes of its last field go.
ghost use Rattle.std.specs.Prelude.{◌≡◌, ◌≢◌, ◌⊎◌, false};
ghost use Rattle.csv.specs.Machine.{step};
ghost use Rattle.csv.specs.declared.parser.State.{State};
ghost use Rattle.rp_input.specs.Layouts.{config_with};
ghost use Rattle.rp_quotes.specs.Quotes.{IsAt};
ghost use Rattle.rp_quotes.specs.Watching.{LeadsToQuoted, is_quoted};
ghost use Rattle.rp_quotes.specs.declared.quoting.Quoting.TheVariants as quoting;

/// The byte that opens and closes a field.
pub(crate) const QUOTE: u8 = b'"';

/// Where a text ends, as far as the quotes of its last field go.
#[derive(Clone, Copy, PartialEq, Eq)]
pub enum Quoting {
    /// Before the first byte of a field.
    Begin,
    /// In a field without quotes, or behind a closing one.
    Plain,
    /// Between quotes.
    Inside,
    /// Behind a quote between quotes: it closes, or stands for one.
    AtQuote,
}

impl Quoting {
    /// Where the text ends with one more byte.
    pub fn behind(self, byte: u8, delimiter: u8) -> Quoting
        ensures { (s : State) → IsAt self s → IsAt result (step (config_with delimiter) s byte).0 }
    {
        self.led_by(byte, delimiter)
    }

    /// The same, and a quote alone leads between quotes.
    pub(crate) fn led_by(self, byte: u8, delimiter: u8) -> Quoting
        ensures at { (s : State) → IsAt self s → IsAt result (step (config_with delimiter) s byte).0 }
        ensures quoted { LeadsToQuoted self byte result }
    {
        match self {
            Quoting::Begin if byte == QUOTE => Quoting::Inside,
            Quoting::Begin => unquoted(byte, delimiter),
            Quoting::Plain => unquoted(byte, delimiter),
            Quoting::Inside if byte == QUOTE => Quoting::AtQuote,
            Quoting::Inside => Quoting::Inside,
            Quoting::AtQuote if byte == QUOTE => Quoting::Inside,
            Quoting::AtQuote => unquoted(byte, delimiter),
        }
    }
}

/// Where a text ends with one more byte that no quote takes.
fn unquoted(byte: u8, delimiter: u8) -> Quoting
    ensures plain { (s : State) → IsAt quoting.Plain s → IsAt result (step (config_with delimiter) s byte).0 }
    ensures other { (s : State) → IsAt quoting.Begin s ⊎ IsAt quoting.AtQuote s → byte ≢ 34 →
        IsAt result (step (config_with delimiter) s byte).0 }
    ensures outside { is_quoted result ≡ false }
{
    if byte == delimiter || byte == b'\n' || byte == b'\r' {
        Quoting::Begin
    } else {
        Quoting::Plain
    }
}
