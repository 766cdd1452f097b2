//! What one call of a validator hands down.
ghost use Rattle.std.specs.Prelude.{◌≡◌};
ghost use Rattle.olk_spec.specs.World.{reads_as};
ghost use Rattle.olk_base.specs.Count.{no_counts};
ghost use Rattle.olk_base.specs.Lawful.{asked_of};

use crate::meter::Meter;
use crate::traits::RegexEngine;
use std::marker::Model;

/// The answer for matches that are left unfinished, which never changes, and the counts.
#[derive(Drop)]
pub struct ValidationContext {
    answer: bool,
    meter: Meter,
}

impl Model for ValidationContext {
    ghost use Rattle.olk_base.specs.Lawful.{Asking};

    ghost Value = { Asking };

    ghost view = { λ c. record { answer = c.answer; meter = c.meter } };
}

impl ValidationContext {
    /// A context with this answer for unfinished matches, and all counts zero.
    pub fn new(answer: bool) -> ValidationContext
        ensures { result ≡ record { answer = answer; meter = no_counts } }
    {
        ValidationContext {
            answer,
            meter: Meter::new(),
        }
    }

    /// The answer for unfinished matches.
    pub fn answer(&self) -> bool
        ensures { result ≡ self.now.answer }
    {
        self.answer
    }

    /// The counts so far.
    pub fn meter(&self) -> &Meter
        ensures { result.now ≡ self.now.meter }
    {
        &self.meter
    }

    /// What the engine says of the text. Where it leaves the match unfinished, one more such match
    /// is counted, and the context's own answer is given.
    pub fn is_match<R: RegexEngine>(&mut self, engine: &R, text: &str) -> bool
        ensures answer { result ≡ reads_as self.old.answer (R.answers engine.now text.now) }
        ensures counts { self.new
            ≡ asked_of (R.costs engine.now) (R.answers engine.now text.now) self.old }
    {
        match engine.is_match(text, &mut self.meter) {
            Ok(found) => found,
            Err(_) => {
                self.meter.tick_unfinished();
                self.answer
            }
        }
    }
}
