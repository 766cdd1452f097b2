//! Reading how often.
ghost use Rattle.std.specs.Prelude.{◌≡◌, ◌≤◌};
ghost use Rattle.olk_regexes.specs.Counts.{number_from, number, closing, counts_most, counts_end, lazy, counts};
ghost use Rattle.olk_regexes.specs.Seen.{seen_pair, seen_number, seen_counts};

// What a number is read as that is as large or larger.
const LARGE: u32 = 1_000_000;

// The digits of a number that began with `from`, and what is behind them.
fn digits(from: u32, text: &[char]) -> (u32, &[char])
    requires { from ≤ 1000000 }
    ensures { seen_pair result ≡ number_from from text.now }
{
    let mut n = from;
    let mut rest = text;
    while let [c, behind @ ..] = rest {
        if !c.is_ascii_digit() {
            break;
        }
        n = if n < 100000 {
            n * 10 + (*c as u32 - 48)
        } else {
            LARGE
        };
        rest = behind;
    }
    (n, rest)
}

fn read_number(text: &[char]) -> Option<(u32, &[char])>
    ensures { seen_number result ≡ number text.now }
{
    match text {
        ['0'..='9', ..] => Some(digits(0, text)),
        _ => None,
    }
}

/// How often: at least, and at most, if there is a limit.
pub type Counts = (u32, Option<u32>);

fn read_closing(k: Counts, text: &[char]) -> Option<(Counts, &[char])>
    ensures { seen_counts result ≡ closing k text.now }
{
    match text {
        ['}', rest @ ..] => Some((k, rest)),
        _ => None,
    }
}

fn read_most(least: u32, text: &[char]) -> Option<(Counts, &[char])>
    ensures { seen_counts result ≡ counts_most least text.now }
{
    match text {
        [] => None,
        ['}', rest @ ..] => Some(((least, None), rest)),
        _ => match read_number(text) {
            None => None,
            Some((most, rest)) => {
                if least <= most {
                    read_closing((least, Some(most)), rest)
                } else {
                    None
                }
            }
        },
    }
}

fn read_counts_end(n: u32, text: &[char]) -> Option<(Counts, &[char])>
    ensures { seen_counts result ≡ counts_end n text.now }
{
    match text {
        ['}', rest @ ..] => Some(((n, Some(n)), rest)),
        [',', rest @ ..] => read_most(n, rest),
        _ => None,
    }
}

fn skip_lazy(k: Counts, text: &[char]) -> Option<(Counts, &[char])>
    ensures { seen_counts result ≡ lazy k text.now }
{
    match text {
        ['?', rest @ ..] => Some((k, rest)),
        _ => Some((k, text)),
    }
}

/// How often, and what is behind it: once where there is no quantifier. None where one is not of
/// the syntax.
pub fn read_counts(text: &[char]) -> Option<(Counts, &[char])>
    ensures { seen_counts result ≡ counts text.now }
{
    match text {
        ['*', rest @ ..] => skip_lazy((0, None), rest),
        ['+', rest @ ..] => skip_lazy((1, None), rest),
        ['?', rest @ ..] => skip_lazy((0, Some(1)), rest),
        ['{', rest @ ..] => match read_number(rest) {
            None => None,
            Some((n, rest)) => match read_counts_end(n, rest) {
                None => None,
                Some((k, rest)) => skip_lazy(k, rest),
            },
        },
        _ => Some(((1, Some(1)), text)),
    }
}
