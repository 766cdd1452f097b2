//! What a leaf set and a matcher give.
use crate::meter::Meter;
use crate::node::Node;
use serde_json::Value;
use std::alloc::{AllocError, Global};

/// A match was given up before it was decided.
#[derive(Drop)]
pub struct Unfinished;

/// Why a leaf or a matcher was not made: what it was to be made of is refused, or there is no
/// memory for it.
#[derive(Drop)]
pub enum MakeError {
    /// What it was to be made of is refused.
    Refused,
    /// There is no memory for it.
    Memory(AllocError),
}

impl From<AllocError> for MakeError {
    ghost use Rattle.std.specs.Prelude.{◌≡◌};
    ghost use Rattle.olk_base.specs.declared.traits.MakeError.TheVariants.{Memory};

    ghost from_gives = { λ a e. e ≡ Memory a };

    /// Out of memory, as `Memory`.
    fn from(error: AllocError) -> MakeError {
        MakeError::Memory(error)
    }
}

/// A pattern that was built, and is asked of texts.
///
/// What it says of a text depends on its type, its pattern and the text alone, and whether asking
/// it is counted never changes. Asking takes no memory.
pub trait RegexEngine: Drop {
    ghost use Rattle.std.specs.Prelude.{◌≡◌, Bool};
    ghost use Rattle.olk_spec.specs.Names.{Text, Name};
    ghost use Rattle.olk_spec.specs.World.{Says};
    ghost use Rattle.olk_base.specs.Lawful.{said, count_ask};

    // whether a pattern builds, and what the pattern says of a name
    ghost builds: { Text → Bool };

    ghost says: { Text → Name → Says };

    // what this engine says of a name, and whether asking it is counted
    ghost answers: { Self → Name → Says };

    ghost costs: { Self → Bool };

    /// Whether the text matches, or that the match was left unfinished. An engine that costs is
    /// counted in `asked`; no other count changes.
    fn is_match(&self, text: &str, meter: &mut Meter) -> Result<bool, Unfinished>
        ensures answer { said result ≡ answers self.now text.now }
        ensures counts { meter.new ≡ count_ask (costs self.now) meter.old };
}

/// Builds engines from patterns.
pub trait MakeRegex {
    ghost use Rattle.std.specs.Prelude.{◌≡◌, true, false, IfOk, IfErr};
    ghost use Rattle.olk_spec.specs.Names.{Name};
    ghost use Rattle.olk_base.specs.Count.{count_made};
    ghost use Rattle.olk_base.specs.Lawful.{IsRefused};

    type Engine: RegexEngine;

    /// An engine of the pattern, whose asking is counted. `Refused` where the pattern does not
    /// build, and only there; `Memory` for out of memory. Counted in `made`, whatever the answer
    /// is; no other count changes.
    fn make(
        &self,
        alloc: Global,
        pattern: &str,
        meter: &mut Meter,
    ) -> Result<Self::Engine, MakeError>
        ensures builds { IfOk result (λ e. Self.Engine.builds pattern.now ≡ true) }
        ensures answers { IfOk result
            (λ e. (n : Name) → Self.Engine.answers e n ≡ Self.Engine.says pattern.now n) }
        ensures costs { IfOk result (λ e. Self.Engine.costs e ≡ true) }
        ensures refused { IfErr result
            (λ e. IsRefused e → Self.Engine.builds pattern.now ≡ false) }
        ensures counts { meter.new ≡ count_made meter.old };
}

/// A keyword of a schema that looks at a value by itself.
///
/// What it says of a node depends on its type, its keyword, the keyword's value and the node alone:
/// a list of texts, none where it accepts.
pub trait Leaf: Drop {
    ghost use Rattle.std.specs.Prelude.{◌≡◌, ◌++◌, Bool, List, IfOk, OnOk, OnErr, IsPermutation};
    ghost use Rattle.serde_json.specs.Data.{Data};
    ghost use Rattle.olk_spec.specs.Names.{Text, Name, is_empty};
    ghost use Rattle.olk_base.specs.Lawful.{IsOneOf, texts_of};
    ghost use Rattle.olk_base.specs.Nodes.{data_of};

    // which names are keywords, which values fit them, and what a keyword with its value says of a
    // tree
    ghost reads: { Name → Bool };

    ghost fits: { Name → Data → Bool };

    ghost faults: { Name → Data → Data → List Text };

    // the keyword of this leaf, and what it says of a tree
    ghost keyword_of: { Self → Name };

    ghost finds: { Self → Data → List Text };

    /// The name of the keyword.
    fn keyword(&self) -> &str
        ensures { result.now ≡ keyword_of self.now };

    /// Whether the node is accepted. Takes no memory.
    fn is_valid(&self, node: Node<'_>) -> bool
        ensures { result ≡ is_empty (finds self.now (data_of node.entry)) };

    /// One of the texts, and none where the node is accepted. The only error is out of memory.
    ///
    /// A leaf that writes none of its own collects all texts and gives the last.
    fn validate(&self, alloc: Global, node: Node<'_>) -> Result<Option<String>, AllocError>
        ensures { IfOk result (IsOneOf (finds self.now (data_of node.entry))) }
    {
        let mut texts = Vec::new(alloc);
        self.collect_errors(alloc, node, &mut texts)?;
        Ok(texts.pop())
    }

    /// Appends all texts. The only error is out of memory, and then nothing is appended.
    fn collect_errors(
        &self,
        alloc: Global,
        node: Node<'_>,
        texts: &mut Vec<String>,
    ) -> Result<(), AllocError>
        ensures ok { OnOk result (texts_of texts.new.items
            ≡ texts_of texts.old.items ++ finds self.now (data_of node.entry)) }
        ensures err { OnErr result (texts.new.items ≡ texts.old.items) };

    /// All texts, in any order. The only error is out of memory.
    ///
    /// A leaf that writes none of its own collects them.
    fn evaluate(&self, alloc: Global, node: Node<'_>) -> Result<Vec<String>, AllocError>
        ensures { IfOk result (λ v. IsPermutation (finds self.now (data_of node.entry))
            (texts_of v.items)) }
    {
        let mut texts = Vec::new(alloc);
        self.collect_errors(alloc, node, &mut texts)?;
        Ok(texts)
    }
}

/// Makes leaves from keywords and their values.
pub trait MakeLeaf {
    ghost use Rattle.std.specs.Prelude.{◌≡◌, true, false, IfOk, IfErr};
    ghost use Rattle.serde_json.specs.Data.{Data};
    ghost use Rattle.serde_json.specs.View.{view};
    ghost use Rattle.olk_base.specs.Count.{count_leaf};
    ghost use Rattle.olk_base.specs.Lawful.{IsRefused};

    type Leaf: Leaf;

    /// Whether the name is a keyword of this leaf set.
    fn reads(&self, keyword: &str) -> bool
        ensures { result ≡ Self.Leaf.reads keyword.now };

    /// The leaf of the keyword and its value. `Refused` where the value does not fit the keyword,
    /// and only there; `Memory` for out of memory. Counted in `leaves`, whatever the answer is; no
    /// other count changes.
    fn make(
        &self,
        alloc: Global,
        keyword: &str,
        value: &Value,
        meter: &mut Meter,
    ) -> Result<Self::Leaf, MakeError>
        ensures fits { IfOk result (λ l. Self.Leaf.fits keyword.now (view value.now) ≡ true) }
        ensures keyword_of { IfOk result (λ l. Self.Leaf.keyword_of l ≡ keyword.now) }
        ensures finds { IfOk result
            (λ l. (v : Data) → Self.Leaf.finds l v
            ≡ Self.Leaf.faults keyword.now (view value.now) v) }
        ensures refused { IfErr result
            (λ e. IsRefused e → Self.Leaf.fits keyword.now (view value.now) ≡ false) }
        ensures counts { meter.new ≡ count_leaf meter.old };
}
