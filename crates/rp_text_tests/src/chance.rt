//! Numbers that look random, and texts that are made of them by forms.
ghost use Rattle.std.specs.Prelude.{◌<◌};

use std::alloc::{AllocError, Global};

/// Lists of cells, in the signs of `filled`.
const CELLS: [&str; 10] = [
    "[]",
    "[]",
    "[null]",
    "[~]",
    "[-9%,null]",
    "[\"\"]",
    "[-9223372036854775808,\"\\\"\\\\\\n\\u0001\u{7f}\",~]",
    "[\"é\u{1f600}\u{10ffff}\"]",
    "[\"é\u{1f600}\u{10ffff}\",\"\",%,-9%]",
    "[null,~,\"\\\"\\\\\\n\\u0001\u{7f}\",null]",
];

/// A stream of numbers that look random, by Knuth's multiplier.
#[derive(Drop)]
pub struct Chance {
    state: u64,
    /// The last number that stood for a `+`.
    row: u64,
}

impl Chance {
    pub fn new(state: u64) -> Chance {
        Chance { state, row: 0 }
    }

    /// A number below 2^31.
    pub fn next(&mut self) -> u64 {
        self.state = self.state.wrapping_mul(6_364_136_223_846_793_005);
        self.state = self.state.wrapping_add(1_442_695_040_888_963_407);
        self.state.wrapping_shr(33)
    }

    /// A number below a limit.
    pub fn below(&mut self, limit: u64) -> u64
        requires { 0 < limit }
        ensures { result < limit }
    {
        self.next() % limit
    }

    /// A place among so many, or 0.
    pub fn place(&mut self, count: usize) -> usize {
        let number = usize::try_from(self.next()).unwrap_or(0);
        number.checked_rem(count).unwrap_or(0)
    }

    /// One of these texts.
    pub fn one_of<'a>(&mut self, texts: &[&'a str]) -> &'a str {
        match texts.get(self.place(texts.len())) {
            Some(text) => *text,
            None => "",
        }
    }

    /// A number of any length.
    fn number(&mut self) -> u64 {
        let places = u32::try_from(self.next()).unwrap_or(0);
        self.next();
        self.state.wrapping_shr(places)
    }

    /// The number that stands for a sign.
    fn number_of(&mut self, sign: char) -> u128 {
        let number = self.number();
        match sign {
            '%' => u128::from(number >> 32),
            '~' => u128::from(number >> 1),
            '$' => u128::from(number),
            '&' => u128::from(number).wrapping_mul(u128::from(self.number())),
            _ => {
                self.row = self.row.saturating_add(1).saturating_add(self.next());
                u128::from(self.row)
            }
        }
    }

    /// A text of this form. In it `*` stands for a list of cells and `+` for the number of a further row, `%` for a number of up to
    /// 32 bits, `~` for one of up to 63, `$` for one of up to 64, and `&` for one of up to 128. No form begins with `*`.
    pub fn filled(&mut self, alloc: Global, form: &str) -> Result<String, AllocError> {
        let mut text = String::new(alloc);
        for part in form.split('*') {
            if !text.is_empty() {
                let cells = self.one_of(&CELLS);
                self.push_signs(alloc, &mut text, cells)?;
            }
            self.push_signs(alloc, &mut text, part)?;
        }
        Ok(text)
    }

    fn push_signs(
        &mut self,
        alloc: Global,
        text: &mut String,
        signs: &str,
    ) -> Result<(), AllocError> {
        for sign in signs.chars() {
            self.push_sign(alloc, text, sign)?;
        }
        Ok(())
    }

    fn push_sign(
        &mut self,
        alloc: Global,
        text: &mut String,
        sign: char,
    ) -> Result<(), AllocError> {
        match sign {
            '%' | '~' | '$' | '&' | '+' => {
                let number = self.number_of(sign);
                text.push_str(format!(in alloc; "{number}")?.as_str())
            }
            _ => text.push(sign),
        }
    }
}
