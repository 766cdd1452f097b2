//! A name among names in order.
ghost use Rattle.std.specs.Prelude.{◌≡◌, ◌<◌, ◌≤◌, length, string_bytes};
ghost use Rattle.olk_tree.specs.Ascending.{first_bytes};

/// A name among names in order.
#[derive(Drop)]
pub struct SortedName {
    text: String,
    // its first eight bytes, as a number
    pub(crate) head: u64,
    ghost head_is: { head ≡ first_bytes (string_bytes text) },
}

impl SortedName {
    /// The name of this text.
    pub(crate) fn of(text: String) -> SortedName
        ensures { string_bytes result.text ≡ string_bytes text }
    {
        SortedName {
            head: head_of(text.as_str()),
            text,
        }
    }

    /// The name.
    pub fn as_str(&self) -> &str
        ensures { result.now ≡ string_bytes self.now.text }
    {
        self.text.as_str()
    }
}

/// The first eight bytes of a text as a number, as if zeros followed the text.
#[inline(always)]
pub(crate) fn head_of(text: &str) -> u64
    ensures { result ≡ first_bytes text.now }
{
    let bytes = text.as_bytes();
    match bytes.first_chunk::<8>() {
        Some(first) => u64::from_be_bytes(*first),
        None => head_of_few(bytes),
    }
}

/// The first bytes of fewer than eight, as `head_of` gives them.
#[inline(always)]
fn head_of_few(bytes: &[u8]) -> u64
    requires { length bytes.now < 8 }
    ensures { result ≡ first_bytes bytes.now }
{
    if bytes.len() < 4 {
        head_up_to_three(bytes)
    } else {
        head_from_four(bytes)
    }
}

#[inline(always)]
fn head_up_to_three(bytes: &[u8]) -> u64
    requires { length bytes.now < 4 }
    ensures { result ≡ first_bytes bytes.now }
{
    match bytes {
        [a, b, c] => u64::from_be_bytes([*a, *b, *c, 0, 0, 0, 0, 0]),
        [a, b] => u64::from_be_bytes([*a, *b, 0, 0, 0, 0, 0, 0]),
        [a] => u64::from_be_bytes([*a, 0, 0, 0, 0, 0, 0, 0]),
        _ => 0,
    }
}

#[inline(always)]
fn head_from_four(bytes: &[u8]) -> u64
    requires few { length bytes.now < 8 }
    requires many { 4 ≤ length bytes.now }
    ensures { result ≡ first_bytes bytes.now }
{
    match bytes {
        [a, b, c, d] => u64::from_be_bytes([*a, *b, *c, *d, 0, 0, 0, 0]),
        [a, b, c, d, e] => u64::from_be_bytes([*a, *b, *c, *d, *e, 0, 0, 0]),
        [a, b, c, d, e, f] => u64::from_be_bytes([*a, *b, *c, *d, *e, *f, 0, 0]),
        [a, b, c, d, e, f, g] => u64::from_be_bytes([*a, *b, *c, *d, *e, *f, *g, 0]),
        _ => unreachable!(),
    }
}
