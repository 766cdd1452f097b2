//! `uniqueItems` (JSON Schema 2020-12 Validation, 6.4.3).
ghost use Rattle.std.specs.Prelude.{◌≡◌, ◌+◌, ◌<◌, ◌≤◌, ◌&&◌, ◌||◌, [], true, false, not, map, length, IsTrue, IfSome, is_none};
ghost use Rattle.std.specs.List.{list_any};
ghost use Rattle.arrayvec.specs.ArrayVec.{array_vec_len};
ghost use Rattle.std.specs.Ordering.{is_eq};
ghost use Rattle.serde_json.specs.Data.{Data};
ghost use Rattle.serde_json.specs.View.{view};
ghost use Rattle.olk_base.specs.Nodes.{data_of};
ghost use Rattle.olk_vocabulary.specs.Same.{same_value};
ghost use Rattle.olk_vocabulary.specs.Unique.{are_unique, has_unique_items};
ghost use Rattle.olk_vocabulary.specs.Blocks.{slot_cmp, slot_same, is_held, meet, IsInOrder, IsPlaceFor, IsFound};

use crate::order::compare;
use arrayvec::ArrayVec;
use olk_base::Node;
use serde_json::Value;
use std::cmp::Ordering;

/// How many items are kept at a time.
const ROOM: usize = 4096;

/// Items in the order of values, each of them once.
#[derive(Drop)]
struct Block<'a> {
    slots: ArrayVec<Option<&'a Value>, 4096>,
    ghost ordered: { IsInOrder slots.items },
}

impl<'a> Block<'a> {
    fn new() -> Block<'a>
        ensures { result.slots.items ≡ [] }
    {
        Block {
            slots: ArrayVec::new(),
        }
    }

    fn search(&self, value: &Value) -> Result<usize, usize>
        ensures { IsFound (view value.now) self.now.slots.items result }
    {
        let slots = self.slots.as_slice();
        slots.binary_search_by(|slot| compare_slot(*slot, value))
    }

    /// Where the value is to be put, if it isn't there.
    fn place_for(&self, value: &Value) -> Option<usize>
        ensures held { is_none result ≡ is_held self.now.slots.items (view value.now) }
        ensures place { IfSome result (IsPlaceFor (view value.now) self.now.slots.items) }
    {
        match self.search(value) {
            Ok(at) => {
                if compare_slot(self.slots.as_slice()[at], value).is_eq() {
                    None
                } else {
                    Some(at)
                }
            }
            Err(at) => Some(at),
        }
    }

    /// Puts the value in, and answers whether it was new.
    fn insert(&mut self, value: &'a Value) -> bool
        requires { array_vec_len self.old.slots < 4096 }
        ensures new { result ≡ not (is_held self.old.slots.items (view value.now)) }
        ensures held { IsTrue result → (v : Data) → is_held self.new.slots.items v
            ≡ (is_held self.old.slots.items v || same_value (view value.now) v) }
        ensures len { IsTrue result
            → array_vec_len self.new.slots ≡ array_vec_len self.old.slots + 1 }
    {
        match self.place_for(value) {
            Some(at) => {
                self.slots.insert(at, Some(value));
                true
            }
            None => false,
        }
    }

    fn has_some_of(&self, items: &[Value]) -> bool
        ensures { result ≡ list_any (λ e. is_held self.now.slots.items e) (map view items.now) }
    {
        for item in items {
            if self.place_for(item).is_none() {
                return true;
            }
        }
        false
    }
}

fn compare_slot(slot: Option<&Value>, value: &Value) -> Ordering
    ensures order { result ≡ slot_cmp slot.entry (view value.now) }
    ensures same { is_eq result ≡ slot_same slot.entry (view value.now) }
{
    match slot {
        Some(kept) => compare(kept, value),
        None => Ordering::Less,
    }
}

/// Whether no item of the block is the same as another of it, or as one behind it.
fn is_apart(block: &[Value], behind: &[Value]) -> bool
    requires { length block.now ≤ 4096 }
    ensures { result ≡ (are_unique (map view block.now)
        && not (meet (map view block.now) (map view behind.now))) }
{
    let mut kept = Block::new();
    for item in block {
        if !kept.insert(item) {
            return false;
        }
    }
    !kept.has_some_of(behind)
}

fn are_unique(items: &[Value]) -> bool
    ensures { result ≡ are_unique (map view items.now) }
{
    let mut rest = items;
    while rest.len() > ROOM {
        let (block, behind) = rest.split_at(ROOM);
        if !is_apart(block, behind) {
            return false;
        }
        rest = behind;
    }
    is_apart(rest, &[])
}

/// Whether no two items of the node are the same. What is no list has none.
pub(crate) fn has_unique_items(node: Node<'_>) -> bool
    ensures { result ≡ has_unique_items (data_of node.entry) }
{
    match node {
        Node::Value(Value::Array(items)) => are_unique(items),
        _ => true,
    }
}
