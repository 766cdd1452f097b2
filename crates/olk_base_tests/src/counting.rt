//! Makers that count in cells what is made, and what is asked of it, whatever a meter is told.
use olk_base::{Leaf, MakeError, MakeLeaf, MakeRegex, Meter, Node, RegexEngine, Unfinished};
use serde_json::Value;
use std::alloc::{AllocError, Global};
use std::cell::Cell;

fn count(cell: &Cell<u64>) {
    cell.set(cell.get().saturating_add(1));
}

/// Makes what its maker makes, and counts in cells how often, and how often that is asked.
#[derive(Drop)]
pub struct Counting<'c, M> {
    pub maker: M,
    pub made: &'c Cell<u64>,
    pub asked: &'c Cell<u64>,
}

/// A leaf that counts in a cell how often it is asked whether it accepts.
#[derive(Drop)]
pub struct CountedLeaf<'c, K> {
    leaf: K,
    asked: &'c Cell<u64>,
}

impl<K: Leaf> Leaf for CountedLeaf<'_, K> {
    ghost reads = { K.reads };

    ghost fits = { K.fits };

    ghost faults = { K.faults };

    ghost keyword_of = { λ l. K.keyword_of l.leaf };

    ghost finds = { λ l v. K.finds l.leaf v };

    fn keyword(&self) -> &str {
        self.leaf.keyword()
    }

    fn is_valid(&self, node: Node<'_>) -> bool {
        count(self.asked);
        self.leaf.is_valid(node)
    }

    fn validate(&self, alloc: Global, node: Node<'_>) -> Result<Option<String>, AllocError> {
        self.leaf.validate(alloc, node)
    }

    fn collect_errors(
        &self,
        alloc: Global,
        node: Node<'_>,
        texts: &mut Vec<String>,
    ) -> Result<(), AllocError> {
        self.leaf.collect_errors(alloc, node, texts)
    }

    fn evaluate(&self, alloc: Global, node: Node<'_>) -> Result<Vec<String>, AllocError> {
        self.leaf.evaluate(alloc, node)
    }
}

impl<'c, M: MakeLeaf> MakeLeaf for Counting<'c, M> {
    type Leaf = CountedLeaf<'c, M::Leaf>;

    fn reads(&self, keyword: &str) -> bool {
        self.maker.reads(keyword)
    }

    fn make(
        &self,
        alloc: Global,
        keyword: &str,
        value: &Value,
        meter: &mut Meter,
    ) -> Result<CountedLeaf<'c, M::Leaf>, MakeError> {
        count(self.made);
        let leaf = self.maker.make(alloc, keyword, value, meter)?;
        Ok(CountedLeaf {
            leaf,
            asked: self.asked,
        })
    }
}

/// An engine that counts in a cell how often it is asked.
#[derive(Drop)]
pub struct Counted<'c, R> {
    engine: R,
    asked: &'c Cell<u64>,
}

impl<R: RegexEngine> RegexEngine for Counted<'_, R> {
    ghost builds = { R.builds };

    ghost says = { R.says };

    ghost answers = { λ e n. R.answers e.engine n };

    ghost costs = { λ e. R.costs e.engine };

    fn is_match(&self, text: &str, meter: &mut Meter) -> Result<bool, Unfinished> {
        count(self.asked);
        self.engine.is_match(text, meter)
    }
}

impl<'c, M: MakeRegex> MakeRegex for Counting<'c, M> {
    type Engine = Counted<'c, M::Engine>;

    fn make(
        &self,
        alloc: Global,
        pattern: &str,
        meter: &mut Meter,
    ) -> Result<Counted<'c, M::Engine>, MakeError> {
        count(self.made);
        let engine = self.maker.make(alloc, pattern, meter)?;
        Ok(Counted {
            engine,
            asked: self.asked,
        })
    }
}
