//! Equal texts.
ghost use Rattle.std.specs.Prelude.{◌≡◌, ◌+◌, ◌≤◌, bytes_eq, length};

/// Whether the texts have the same bytes. Takes no memory.
///
/// Small enough to stand in walks: most texts that are compared in a search differ in their
/// lengths, and names are short.
#[inline(always)]
pub fn is_same_text(one: &str, other: &str) -> bool
    ensures { result ≡ bytes_eq one.now other.now }
{
    one.len() == other.len() && bytes_are_equal(one, other)
}

/// Two runs that may overlap cover a short text. The last is compared first: names that stand beside
/// one another in order begin alike.
#[inline(always)]
fn bytes_are_equal(one: &str, other: &str) -> bool
    requires { length one.now ≡ length other.now }
    ensures { result ≡ bytes_eq one.now other.now }
{
    let (first, second) = (one.as_bytes(), other.as_bytes());
    let count = first.len();
    if count < 4 {
        few_are_equal(first, second)
    } else if count < 8 {
        ends_are_equal::<4>(first, second)
    } else if count <= 16 {
        ends_are_equal::<8>(first, second)
    } else if count <= 32 {
        ends_are_equal::<16>(first, second)
    } else {
        many_are_equal(one, other)
    }
}

/// The last, the first and the middle of at most three bytes are all of them.
#[inline(always)]
fn few_are_equal(one: &[u8], other: &[u8]) -> bool
    requires same { length one.now ≡ length other.now }
    requires few { length one.now ≤ 3 }
    ensures { result ≡ bytes_eq one.now other.now }
{
    let count = one.len();
    if count == 0 {
        return true;
    }
    let (middle, last) = (count / 2, count - 1);
    one[last] == other[last] && one[0] == other[0] && one[middle] == other[middle]
}

#[inline(always)]
fn ends_are_equal<const N: usize>(one: &[u8], other: &[u8]) -> bool
    requires same { length one.now ≡ length other.now }
    requires whole { N ≤ length one.now }
    requires covered { length one.now ≤ N + N }
    ensures { result ≡ bytes_eq one.now other.now }
{
    let (Some(end), Some(its_end)) = (one.last_chunk::<N>(), other.last_chunk::<N>()) else {
        return false;
    };
    if *end != *its_end {
        return false;
    }
    match (one.first_chunk::<N>(), other.first_chunk::<N>()) {
        (Some(start), Some(its_start)) => *start == *its_start,
        _ => false,
    }
}

#[inline(never)]
fn many_are_equal(one: &str, other: &str) -> bool
    ensures { result ≡ bytes_eq one.now other.now }
{
    one == other
}
