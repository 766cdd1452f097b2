//! How many questions were accepted that were asked together.
ghost use Rattle.std.specs.Prelude.{◌≡◌};
ghost use Rattle.olk_check.specs.Together.{one_if, two_if, is_accepted};

/// How many questions were accepted that were asked together: none where one of them is refused.
///
/// A function that gives this calls another that does so without a frame of its own, which it can't
/// where it gives a `bool`.
#[derive(Clone, Copy)]
pub enum Accepted {
    /// A question was refused.
    None,
    /// One question was accepted.
    One,
    /// Two questions were accepted.
    Two,
}

impl Accepted {
    /// The one question, where it is accepted.
    #[inline(always)]
    pub(crate) fn one_if(accepted: bool) -> Accepted
        ensures { result ≡ one_if accepted }
    {
        if accepted {
            Accepted::One
        } else {
            Accepted::None
        }
    }

    /// Both questions, where they are accepted.
    #[inline(always)]
    pub(crate) fn two_if(accepted: bool) -> Accepted
        ensures { result ≡ two_if accepted }
    {
        if accepted {
            Accepted::Two
        } else {
            Accepted::None
        }
    }

    /// Whether all that was asked is accepted.
    #[inline(always)]
    pub(crate) fn is_some(self) -> bool
        ensures { result ≡ is_accepted self }
    {
        !matches!(self, Accepted::None)
    }
}
