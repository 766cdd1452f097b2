//! Where in a text an expression matches.
ghost use Rattle.std.specs.Prelude.{◌≡◌, ◌≤◌, [], false, length};
ghost use Rattle.std.specs.Bool.{Decides};
ghost use Rattle.std.specs.List.{All};
ghost use Rattle.std.specs.Str.{chars};
ghost use Rattle.olk_regexes.specs.Live.{IsDead};
ghost use Rattle.olk_regexes.specs.Marks.{size, expr, matches, IsBuilt};
ghost use Rattle.olk_regexes.specs.Language.{framed, Finds};
ghost use Rattle.olk_regexes.specs.Search.{finds, Reads};

use crate::regex::Regex;
use crate::size::MARKS;
use crate::step::{Moved, step};

/// What `^` reads: the code before a text, which is no character's.
pub const START: u32 = 0x11_0000;

/// What `$` reads: the code behind a text.
pub const END: u32 = 0x11_0001;

// Reads a character, if nothing was found so far.
fn read(regex: &Regex, c: u32, before: Moved, marks: &mut [bool]) -> Moved
    requires built { IsBuilt regex.now }
    requires sized { length marks.old ≡ size regex.now }
    requires dead { IsDead before.live marks.old }
    ensures reads { Reads regex.now c before.ended marks.old marks.new result.ended }
    ensures dead { IsDead result.live marks.new }
{
    if before.ended {
        return before;
    }
    step(regex, true, c, before.live, marks)
}

// Whether the expression matches a part of the text.
fn search_with(regex: &Regex, empty: bool, text: &str, marks: &mut [bool]) -> bool
    requires built { IsBuilt regex.now }
    requires empty { empty ≡ matches (expr regex.now) [] }
    requires sized { length marks.old ≡ size regex.now }
    requires unset { All (λ b. b ≡ false) marks.old }
    ensures { result ≡ finds (matches (expr regex.now)) (framed (chars text.now)) }
{
    let before = Moved {
        ended: empty,
        live: 0,
    };
    let mut found = read(regex, START, before, marks);
    for c in text.chars() {
        found = read(regex, c as u32, found, marks);
    }
    read(regex, END, found, marks).ended
}

/// Whether the expression matches a part of the text. `empty` says whether it matches the empty
/// text, and `count` how many marks it has.
pub fn search(regex: &Regex, empty: bool, count: usize, text: &str) -> bool
    requires built { IsBuilt regex.now }
    requires empty { empty ≡ matches (expr regex.now) [] }
    requires sized { count ≡ size regex.now }
    requires few { count ≤ MARKS }
    ensures found { Decides result (Finds (expr regex.now) (framed (chars text.now))) }
    ensures test { result ≡ finds (matches (expr regex.now)) (framed (chars text.now)) }
{
    let mut all = [false; MARKS];
    search_with(regex, empty, text, &mut all[..count])
}
