//! Reading an escape.
ghost use Rattle.std.specs.Prelude.{◌≡◌, ◌≤◌, ◌<◌, IfSome};
ghost use Rattle.olk_regexes.specs.Escapes.{two_hex, four_hex, trail, paired, code_from, code_end, braced_code, unicode, control, begins_digit, plain_escape, escaped_char, escaped_set, property, escape};
ghost use Rattle.olk_regexes.specs.Seen.{seen_number, seen_pair, seen_set, seen_item};

use crate::class::Characters;
use crate::names::read_category;
use crate::sets::{DIGITS, NO_DIGITS, NO_SPACES, NO_WORDS, SPACES, WORDS};

// The last character.
const LAST: u32 = 0x10_ffff;

/// A character or a set.
#[derive(Drop)]
pub enum Item {
    Char(u32),
    Set(&'static [Characters]),
    Property(Characters),
}

fn read_two_hex(text: &[char]) -> Option<(u32, &[char])>
    ensures value { seen_number result ≡ two_hex text.now }
    ensures small { IfSome result (λ p. p.0 < 256) }
{
    match text {
        [a, b, rest @ ..] => Some((a.to_digit(16)? * 16 + b.to_digit(16)?, rest)),
        _ => None,
    }
}

fn read_four_hex(text: &[char]) -> Option<(u32, &[char])>
    ensures value { seen_number result ≡ four_hex text.now }
    ensures small { IfSome result (λ p. p.0 < 65536) }
{
    let (high, rest) = read_two_hex(text)?;
    let (low, rest) = read_two_hex(rest)?;
    Some((high * 256 + low, rest))
}

fn read_trail(text: &[char]) -> Option<(u32, &[char])>
    ensures value { seen_number result ≡ trail text.now }
    ensures surrogate { IfSome result (λ p. p.0 ≤ 57343) }
{
    match text {
        ['\\', 'u', rest @ ..] => {
            let (code, rest) = read_four_hex(rest)?;
            if 0xdc00 <= code && code <= 0xdfff {
                Some((code, rest))
            } else {
                None
            }
        }
        _ => None,
    }
}

// A leading surrogate with a trailing one behind it is one character.
fn read_pair(code: u32, text: &[char]) -> Option<(u32, &[char])>
    ensures { seen_number result ≡ paired code text.now }
{
    if 0xd800 <= code && code <= 0xdbff {
        match read_trail(text) {
            Some((trail, rest)) => Some((
                (code - 0xd800) * 1024 + (trail - 0xdc00) + 0x1_0000,
                rest,
            )),
            None => Some((code, text)),
        }
    } else {
        Some((code, text))
    }
}

// The code of the digits behind those of `from`, and what is behind them.
fn read_code(from: u32, text: &[char]) -> (u32, &[char])
    requires { from ≤ 20000000 }
    ensures { seen_pair result ≡ code_from from text.now }
{
    let mut code = from;
    let mut rest = text;
    while let [c, behind @ ..] = rest {
        match c.to_digit(16) {
            Some(digit) => {
                if code <= LAST {
                    code = code * 16 + digit;
                }
            }
            None => break,
        }
        rest = behind;
    }
    (code, rest)
}

fn read_code_end(code: u32, text: &[char]) -> Option<(u32, &[char])>
    ensures { seen_number result ≡ code_end code text.now }
{
    match text {
        ['}', rest @ ..] => if code <= LAST {
            Some((code, rest))
        } else {
            None
        },
        _ => None,
    }
}

fn read_braced_code(text: &[char]) -> Option<(u32, &[char])>
    ensures { seen_number result ≡ braced_code text.now }
{
    match text {
        [c, ..] => if c.is_digit(16) {
            let (code, rest) = read_code(0, text);
            read_code_end(code, rest)
        } else {
            None
        },
        [] => None,
    }
}

fn read_unicode(text: &[char]) -> Option<(u32, &[char])>
    ensures { seen_number result ≡ unicode text.now }
{
    match text {
        ['{', rest @ ..] => read_braced_code(rest),
        _ => {
            let (code, rest) = read_four_hex(text)?;
            read_pair(code, rest)
        }
    }
}

fn read_control(text: &[char]) -> Option<(u32, &[char])>
    ensures { seen_number result ≡ control text.now }
{
    match text {
        [c, rest @ ..] => if c.is_ascii_alphabetic() {
            Some((*c as u32 % 32, rest))
        } else {
            None
        },
        [] => None,
    }
}

fn begins_digit(text: &[char]) -> bool
    ensures { result ≡ begins_digit text.now }
{
    match text {
        [c, ..] => c.is_ascii_digit(),
        [] => false,
    }
}

fn plain_escape(c: char) -> Option<u32>
    ensures { result ≡ plain_escape c }
{
    match c {
        'n' => Some(10),
        'r' => Some(13),
        't' => Some(9),
        'f' => Some(12),
        'v' => Some(11),
        '^' | '$' | '\\' | '.' | '*' | '+' | '?' | '(' | ')' | '[' | ']' | '{' | '}' | '|' | '/' =>
            { Some(c as u32) }
        _ => None,
    }
}

fn read_char(c: char, text: &[char]) -> Option<(u32, &[char])>
    ensures { seen_number result ≡ escaped_char c text.now }
{
    match c {
        'x' => read_two_hex(text),
        'u' => read_unicode(text),
        'c' => read_control(text),
        '0' => if begins_digit(text) {
            None
        } else {
            Some((0, text))
        },
        _ => Some((plain_escape(c)?, text)),
    }
}

fn escaped_set(c: char) -> Option<&'static [Characters]>
    ensures { seen_set result ≡ escaped_set c }
{
    match c {
        'd' => Some(&DIGITS),
        'D' => Some(&NO_DIGITS),
        'w' => Some(&WORDS),
        'W' => Some(&NO_WORDS),
        's' => Some(&SPACES),
        'S' => Some(&NO_SPACES),
        _ => None,
    }
}

fn read_property(negated: bool, text: &[char]) -> Option<(Item, &[char])>
    ensures { seen_item result ≡ property negated text.now }
{
    let (category, rest) = read_category(text)?;
    Some((
        Item::Property(Characters::Property { category, negated }),
        rest,
    ))
}

/// What an escape stands for, and what is behind it. The text begins behind the backslash.
pub fn read_escape(text: &[char]) -> Option<(Item, &[char])>
    ensures { seen_item result ≡ escape text.now }
{
    match text {
        ['p', rest @ ..] => read_property(false, rest),
        ['P', rest @ ..] => read_property(true, rest),
        [c, rest @ ..] => match escaped_set(*c) {
            Some(set) => Some((Item::Set(set), rest)),
            None => {
                let (c, rest) = read_char(*c, rest)?;
                Some((Item::Char(c), rest))
            }
        },
        [] => None,
    }
}
