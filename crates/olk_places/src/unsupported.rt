//! What of a schema is not supported, place by place.
use crate::pointer::Pointer;
use crate::references::{has_id, is_below_id, is_pointer};
use crate::support::{Held, Member, Unsupported};
use olk_document_meaning::pointers::place_named;
use serde_json::{Map, Value};
use std::alloc::{AllocError, Global};
use std::collections::{BTreeMap, BTreeSet};
use std::mem;

/// How deep places are looked for: deeper than they are in any schema that `serde_json` reads.
const DEEPEST: u8 = u8::MAX;

/// A line for each place of the schema at which something is not supported, or a pattern is
/// malformed: a JSON pointer, and what it is. Places are looked for where building reads them,
/// member by member: first in the schema as it stands, and then where its references lead, one
/// behind another `reference_limit` times at most.
///
/// # Errors
///
/// Out of memory.
pub fn unsupported_lines(
    alloc: Global,
    schema: &Value,
    reference_limit: usize,
) -> Result<Vec<String>, AllocError> {
    let mut found = Found::new(alloc, schema, reference_limit);
    let mut round = BTreeSet::new(alloc);
    round.insert("#")?;
    for _ in 0..reference_limit {
        round = found.look_at_round(&round)?;
    }
    found.look_at_last(&round)?;
    Ok(found.lines)
}

/// How a walk goes on.
#[derive(Clone, Copy)]
struct Walk {
    /// So many levels further down.
    left: u8,
    /// Behind as many references as are followed.
    is_last: bool,
    /// Inside of a schema that has a name of its own.
    is_below_id: bool,
}

/// What is found on a walk.
#[derive(Drop)]
struct Found<'s> {
    alloc: Global,
    /// The whole schema.
    schema: &'s Value,
    /// So many references are followed, one behind another.
    reference_limit: usize,
    lines: Vec<String>,
    /// The same lines, each of which is told once.
    told: BTreeSet<String>,
    /// The texts of references that have been read where it is looked.
    read: BTreeSet<&'s str>,
    /// Those that were read at the places that texts name.
    behind: BTreeMap<&'s str, BTreeSet<&'s str>>,
}

impl<'s> Found<'s> {
    fn new(alloc: Global, schema: &'s Value, reference_limit: usize) -> Found<'s> {
        Found {
            alloc,
            schema,
            reference_limit,
            lines: Vec::new(alloc),
            told: BTreeSet::new(alloc),
            read: BTreeSet::new(alloc),
            behind: BTreeMap::new(alloc),
        }
    }

    /// Looks at the places that these texts name, but for those at which it has looked. Gives the
    /// texts of the references that are read there.
    fn look_at_round(
        &mut self,
        round: &BTreeSet<&'s str>,
    ) -> Result<BTreeSet<&'s str>, AllocError> {
        let mut behind = BTreeSet::new(self.alloc);
        for text in round {
            if !self.behind.contains_key(text) {
                self.look_at_named(text, false)?;
                let read = mem::replace(&mut self.read, BTreeSet::new(self.alloc));
                self.behind.insert(*text, read)?;
            }
            if let Some(texts) = self.behind.get(text) {
                behind.extend(texts)?;
            }
        }
        Ok(behind)
    }

    /// Looks at the places that these texts name, behind as many references as are followed.
    fn look_at_last(&mut self, round: &BTreeSet<&'s str>) -> Result<(), AllocError> {
        for text in round {
            self.look_at_named(text, true)?;
        }
        Ok(())
    }

    /// Looks at the place that a text names.
    fn look_at_named(&mut self, text: &'s str, is_last: bool) -> Result<(), AllocError> {
        let Some(schema) = place_named(self.alloc, self.schema, text)? else {
            return Ok(());
        };
        let pointer = text.strip_prefix('#').unwrap_or("");
        let walk = Walk {
            left: DEEPEST,
            is_last,
            is_below_id: is_below_id(self.alloc, self.schema, pointer)?,
        };
        self.look_at(&Pointer::Named(pointer), schema, walk)
    }

    /// Looks at a schema, and at those in it.
    #[cycle(places)]
    fn look_at(
        &mut self,
        place: &Pointer<'_, 's>,
        schema: &'s Value,
        walk: Walk,
    ) -> Result<(), AllocError> {
        let Value::Object(members) = schema else {
            return Ok(());
        };
        if walk.left == 0 {
            return Ok(());
        }
        let below = Walk {
            left: walk.left - 1,
            is_last: walk.is_last,
            is_below_id: walk.is_below_id || !place.is_root() && has_id(schema),
        };
        for (name, value) in members {
            let name = name.as_str();
            let member = Member {
                members,
                name,
                value,
            };
            self.look_at_member(&Pointer::Member(&*place, name), member, below)?;
        }
        Ok(())
    }

    #[cycle(places)]
    fn look_at_member(
        &mut self,
        place: &Pointer<'_, 's>,
        member: Member<'s>,
        walk: Walk,
    ) -> Result<(), AllocError> {
        if let Some(what) = member.unsupported(self.alloc)? {
            self.add(place, what)?;
        }
        if let Some(text) = member.reference() {
            self.look_at_reference(place, text, walk)?;
        }
        match (member.held(), member.value) {
            (Held::Itself, schema) => self.look_at(&*place, schema, walk),
            (Held::Items, Value::Array(schemas)) => self.look_at_items(&*place, schemas, walk),
            (Held::Entries, Value::Object(entries)) => {
                self.look_at_entries(&*place, member, entries, walk)
            }
            (Held::EntriesOfEntries, Value::Object(entries)) => {
                self.look_at_inner_entries(&*place, entries, walk)
            }
            _ => Ok(()),
        }
    }

    #[cycle(places)]
    fn look_at_items(
        &mut self,
        place: &Pointer<'_, 's>,
        schemas: &'s Vec<Value>,
        walk: Walk,
    ) -> Result<(), AllocError> {
        for (index, schema) in schemas.iter().enumerate() {
            self.look_at(&Pointer::Item(&*place, index), schema, walk)?;
        }
        Ok(())
    }

    #[cycle(places)]
    fn look_at_entries(
        &mut self,
        place: &Pointer<'_, 's>,
        member: Member<'s>,
        entries: &'s Map<String, Value>,
        walk: Walk,
    ) -> Result<(), AllocError> {
        for (key, schema) in entries {
            let key = key.as_str();
            let place = Pointer::Member(&*place, key);
            if let Some(what) = member.unsupported_entry(self.alloc, key, schema)? {
                self.add(&place, what)?;
            }
            self.look_at(&place, schema, walk)?;
        }
        Ok(())
    }

    #[cycle(places)]
    fn look_at_inner_entries(
        &mut self,
        place: &Pointer<'_, 's>,
        entries: &'s Map<String, Value>,
        walk: Walk,
    ) -> Result<(), AllocError> {
        for (key, inner) in entries {
            let place = Pointer::Member(&*place, key.as_str());
            if let Value::Object(inner) = inner {
                for (text, schema) in inner {
                    self.look_at(&Pointer::Member(&place, text.as_str()), schema, walk)?;
                }
            }
        }
        Ok(())
    }

    /// Keeps the text of a reference that is followed, and tells of another one why it isn't.
    fn look_at_reference(
        &mut self,
        place: &Pointer<'_, 's>,
        text: &'s str,
        walk: Walk,
    ) -> Result<(), AllocError> {
        match self.why_not_followed(text, walk)? {
            Some(why) => self.add(place, why),
            None => {
                self.read.insert(text)?;
                Ok(())
            }
        }
    }

    /// Why a reference is not followed, if it isn't.
    fn why_not_followed(
        &self,
        text: &str,
        walk: Walk,
    ) -> Result<Option<Unsupported<'s>>, AllocError> {
        if walk.is_below_id {
            return Ok(Some(Unsupported::BelowId));
        }
        if !is_pointer(text) {
            return Ok(Some(Unsupported::Value("$ref")));
        }
        match place_named(self.alloc, self.schema, text)? {
            Some(_) if walk.is_last => Ok(Some(Unsupported::TooFar(self.reference_limit))),
            Some(_) => Ok(None),
            None => Ok(Some(Unsupported::NoPlace)),
        }
    }

    /// Tells what is not supported at a place, once.
    fn add(&mut self, place: &Pointer<'_, '_>, what: Unsupported<'_>) -> Result<(), AllocError> {
        let place = place.shown(self.alloc)?;
        let line = format!(in self.alloc; "{place}: {what}")?;
        if self.told.insert(line.clone()?)? {
            self.lines.push(line)?;
        }
        Ok(())
    }
}
