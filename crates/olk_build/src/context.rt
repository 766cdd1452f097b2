//! The makers that a build hands down.
ghost use Rattle.std.specs.Prelude.{◌≡◌, []};

use olk_base::Meter;
use olk_reports::Location;
use std::alloc::Global;

/// The makers of leaves and of matchers.
#[derive(Drop)]
pub struct Makers<'c, L, M> {
    pub leaves: &'c L,
    pub regexes: &'c M,
}

/// What a build hands down: the makers, the meter and the current place.
#[derive(Drop)]
pub struct Context<'c, L, M> {
    pub makers: Makers<'c, L, M>,
    pub meter: &'c mut Meter,
    pub place: Location,
}

impl<'c, L, M> Context<'c, L, M> {
    /// A context at the root of a schema, which counts on the meter.
    pub fn new(alloc: Global, leaves: &'c L, regexes: &'c M, meter: &'c mut Meter) -> Self
        ensures same_meter { result.meter.ghost_name ≡ meter.entry.ghost_name }
        ensures counts { result.meter.now ≡ meter.old }
        ensures root { result.place ≡ [] }
    {
        Context {
            makers: Makers { leaves, regexes },
            meter,
            place: Location::new(alloc),
        }
    }

    /// The current place, a JSON pointer (RFC 6901).
    pub fn location(&self) -> &str
        ensures { result.now ≡ self.now.place }
    {
        self.place.as_str()
    }
}
