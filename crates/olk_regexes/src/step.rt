//! One character more.
ghost use Rattle.std.specs.Prelude.{◌≡◌, ◌≤◌, ◌+◌, ◌||◌, ◌&&◌, length};
ghost use Rattle.olk_regexes.specs.Class.{has};
ghost use Rattle.olk_regexes.specs.Marks.{size, IsBuilt, Steps};
ghost use Rattle.olk_regexes.specs.Live.{IsDead, live_then, live_or};

use crate::class::Class;
use crate::regex::Regex;

/// What a character did: whether a match ends behind it, and before which mark all marks stand.
#[derive(Clone, Copy)]
pub struct Moved {
    pub ended: bool,
    pub live: usize,
}

// `a`, or `b` and `c`.
fn or_both(a: bool, b: bool, c: bool) -> bool
    ensures { result ≡ (a || (b && c)) }
{
    a || b && c
}

fn or(a: bool, b: bool) -> bool
    ensures { result ≡ (a || b) }
{
    a || b
}

// Whether a match that begins before the character ends behind it.
fn begins(enter: bool, class: &Class, c: u32) -> bool
    ensures { result ≡ (enter && has class.now.negated class.now.members.items c) }
{
    enter && class.has(c)
}

// Before which mark all marks of a sequence stand, by those of its parts; `mid` is where the
// second part's begin.
fn live_then(ended: bool, first: usize, second: usize, mid: usize) -> usize
    requires second { mid + second ≤ 18446744073709551615 }
    requires first { 1 + first ≤ 18446744073709551615 }
    ensures { result ≡ live_then ended first second mid }
{
    if second > 0 {
        mid + second
    } else if first > 0 {
        1 + first
    } else if ended {
        1
    } else {
        0
    }
}

fn live_or(first: usize, second: usize, mid: usize) -> usize
    requires { mid + second ≤ 18446744073709551615 }
    ensures { result ≡ live_or first second mid }
{
    if second > 0 { mid + second } else { first }
}

/// Reads a character: moves the marks, and says whether a match ends here. A match may begin before
/// the character if `enter`. No mark stands at `live` or behind it. Nothing is looked at where
/// nothing begins, and no mark stands.
#[cycle(step)]
pub fn step(regex: &Regex, enter: bool, c: u32, live: usize, marks: &mut [bool]) -> Moved
    requires built { IsBuilt regex.now }
    requires sized { length marks.old ≡ size regex.now }
    requires dead { IsDead live marks.old }
    ensures steps { Steps regex.now enter c marks.old marks.new result.ended }
    ensures within { result.live ≤ length marks.new }
    ensures dead { IsDead result.live marks.new }
{
    if !enter {
        if live == 0 {
            return Moved {
                ended: false,
                live: 0,
            };
        }
    }
    match regex {
        Regex::Empty => Moved {
            ended: false,
            live: 0,
        },
        Regex::One(class) => Moved {
            ended: begins(enter, class, c),
            live: 0,
        },
        Regex::Then {
            first,
            marks: n,
            first_empty,
            second,
            second_empty,
        } => {
            let before = marks[0];
            let mid = 1 + *n;
            let one = step(first, enter, c, live.saturating_sub(1), &mut marks[1..mid]);
            let enters = or_both(before, enter, *first_empty);
            let two = step(
                second,
                enters,
                c,
                live.saturating_sub(mid),
                &mut marks[mid..],
            );
            marks[0] = one.ended;
            Moved {
                ended: or_both(two.ended, one.ended, *second_empty),
                live: live_then(one.ended, one.live, two.live, mid),
            }
        }
        Regex::Or {
            first,
            marks: n,
            second,
        } => {
            let left = step(first, enter, c, live, &mut marks[..*n]);
            let right = step(second, enter, c, live.saturating_sub(*n), &mut marks[*n..]);
            Moved {
                ended: or(left.ended, right.ended),
                live: live_or(left.live, right.live, *n),
            }
        }
        Regex::Star(each) => {
            let enters = or(marks[0], enter);
            let one = step(each, enters, c, live.saturating_sub(1), &mut marks[1..]);
            marks[0] = one.ended;
            Moved {
                ended: one.ended,
                live: live_then(one.ended, one.live, 0, 1),
            }
        }
    }
}
