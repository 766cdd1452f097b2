//! Numbers as they stand in a text.
ghost use Rattle.std.specs.Prelude.{IfSome};
ghost use Rattle.olk_places.specs.Told.{IsAt};

use olk_reports::ValidationErrorKind;
use std::fmt::{self, Display, Formatter};

/// How many bytes of a number are shown.
const MOST: usize = 200;

/// Whether a message begins with the word `value` for the instance, as those of leaf keywords do
/// where a number in it is no whole number of 64 bits.
pub fn leaves_number_out(kind: &ValidationErrorKind<'_>, message: &str) -> bool {
    match kind {
        ValidationErrorKind::Leaf { keyword, text: _ } => {
            *keyword != "const" && message.starts_with("value ")
        }
        _ => false,
    }
}

/// A number as it stands in a text, shown whole or cut at 200 bytes.
#[derive(Clone, Copy)]
pub struct NumberText<'t> {
    digits: &'t str,
    is_cut: bool,
}

impl<'t> NumberText<'t> {
    /// The number that stands at an offset of a text, if it is one that stands there.
    pub fn at(text: &'t [u8], offset: usize) -> Option<NumberText<'t>>
        ensures { IfSome result (λ n. IsAt text.now offset n.digits.now) }
    {
        let rest = text.get(offset..)?;
        let len = rest.iter().take_while(|byte| is_of_number(**byte)).count();
        let digits = str::from_utf8(rest.get(..len.min(MOST))?).ok()?;
        if digits.is_empty() {
            return None;
        }
        Some(NumberText {
            digits,
            is_cut: len > MOST,
        })
    }
}

impl Display for NumberText<'_> {
    fn fmt<W: fmt::Write>(&self, f: &mut Formatter<W>) -> fmt::Result {
        f.write_str(self.digits)?;
        f.write_str(if self.is_cut { ".." } else { "" })
    }
}

/// Whether a byte may stand in a number (RFC 8259, 6).
fn is_of_number(byte: u8) -> bool {
    matches!(byte, b'0'..=b'9' | b'-' | b'+' | b'.' | b'e' | b'E')
}
