//! A document that is ready to be asked.
ghost use Rattle.std.specs.Prelude.{◌≡◌, ◌≤◌, ◌<◌, ◌-◌, ◌^◌, min, [], true, false, nat_eq, length, IfOk, IfErr, OnOk, OnErr};
ghost use Rattle.serde_json.specs.Data.{Data};
ghost use Rattle.serde_json.specs.View.{view};
ghost use Rattle.olk_spec.specs.Tree.{IsLikeTree, is_valid as valid_tree};
ghost use Rattle.olk_reports.specs.Entries.{evaluated};
ghost use Rattle.olk_base.specs.Count.{raised};
ghost use Rattle.olk_base.specs.Kit.{kit, world};
ghost use Rattle.olk_check.specs.Asks.{OnlyAsks, IsCertain};
ghost use Rattle.olk_build.specs.Refusing.{TellsOneOf};
ghost use Rattle.olk_errors.specs.Found.{Appends, IfInvalid, IfTold, IsLikeOneOf};
ghost use Rattle.olk_document_spec.specs.Documents.{document_meaning};
ghost use Rattle.olk_document_spec.specs.Malformed.{document_malformations};
ghost use Rattle.olk_document.specs.Validators.{IsDocumentValidatorOf, IsRefusalBy, first_faults, left_unfinished};

use olk_base::{Leaf, MakeLeaf, MakeRegex, Meter, Node, RegexEngine, ValidationContext};
use olk_build::Context;
use olk_check::Check;
use olk_document_build::compile_document;
use olk_documents::DocumentNode;
use olk_errors::Errors;
use olk_evaluate::Evaluate;
use olk_reports::{
    BuildError, Evaluation, EvaluationNode, InstancePath, ValidateError, ValidationError,
};
use serde_json::Value;
use std::alloc::{AllocError, Global};

/// A document that is ready to be asked, with its leaves and matchers.
#[derive(Drop)]
pub struct DocumentValidator<K, R> {
    root: DocumentNode<K, R>,
}

impl<K: Leaf, R: RegexEngine> DocumentValidator<K, R> {
    /// Builds the validator of a document, with the leaves and the matchers that the makers give.
    ///
    /// Each place that references name is built once, however many name it, and each of them leads
    /// there. What is built is counted on the meter.
    ///
    /// # Errors
    ///
    /// A malformed document is refused with one of its malformations (JSON Schema 2020-12 Core,
    /// 4.3, and the shapes of the keywords), and only such a document is. Malformed is a reference
    /// too that names no place of the document, or one behind `REFERENCE_LIMIT` others. Without
    /// memory nothing is said of the document.
    pub fn build<'s, L: MakeLeaf<Leaf = K>, M: MakeRegex<Engine = R>>(
        alloc: Global,
        leaves: &L,
        regexes: &M,
        document: &'s Value,
        meter: &mut Meter,
    ) -> Result<DocumentValidator<K, R>, BuildError<'s>>
        ensures stands { IfOk result
            (λ v. IsDocumentValidatorOf (kit K.Leaf R.RegexEngine) v (view document.now)) }
        ensures clean { OnOk result
            (document_malformations (world K.Leaf R.RegexEngine) (view document.now) ≡ []) }
        ensures refused { IfErr result (TellsOneOf
            (document_malformations (world K.Leaf R.RegexEngine) (view document.now))) }
    {
        let mut ctx = Context::new(alloc, leaves, regexes, meter);
        let root = compile_document(alloc, &mut ctx, document)?;
        Ok(DocumentValidator { root })
    }

    /// Whether the document accepts the instance (JSON Schema 2020-12 Core, 4.3.2 and 10), with the
    /// context's answer for matches that are left unfinished.
    ///
    /// Takes no memory. The context keeps its answer. Of the counts, those of matchers that were
    /// asked and of matches that were left unfinished rise: the first by at most what the document
    /// asks, the second by at most those of these that the matcher leaves unfinished. Where the
    /// second does not rise, and is below `u64::MAX`, the document accepts with either answer or
    /// with neither.
    pub fn is_valid(&self, instance: &Value, ctx: &mut ValidationContext) -> bool
        ensures context { OnlyAsks ctx.old ctx.new }
        ensures verdict { (D : Data)
            → IsDocumentValidatorOf (kit K.Leaf R.RegexEngine) self.now D
            → result
            ≡ (document_meaning (world K.Leaf R.RegexEngine) ctx.old.answer D).accepts
            (view instance.now) }
        ensures asked_to { (D : Data)
            → IsDocumentValidatorOf (kit K.Leaf R.RegexEngine) self.now D
            → ctx.new.meter.asked ≤ raised ctx.old.meter.asked
            ((document_meaning (world K.Leaf R.RegexEngine) ctx.old.answer D).asks
            (view instance.now)) }
        ensures unfinished_to { (D : Data)
            → IsDocumentValidatorOf (kit K.Leaf R.RegexEngine) self.now D
            → ctx.new.meter.unfinished ≤ raised ctx.old.meter.unfinished
            (min ((document_meaning (world K.Leaf R.RegexEngine) ctx.old.answer D).asks
            (view instance.now))
            (left_unfinished (kit K.Leaf R.RegexEngine) self.now ctx.old.answer
            (view instance.now))) }
        ensures certain { (D : Data)
            → IsDocumentValidatorOf (kit K.Leaf R.RegexEngine) self.now D
            → ctx.new.meter.unfinished ≡ ctx.old.meter.unfinished
            → ctx.old.meter.unfinished < 2 ^ 64 - 1
            → (document_meaning (world K.Leaf R.RegexEngine) true D).accepts
            (view instance.now)
            ≡ (document_meaning (world K.Leaf R.RegexEngine) false D).accepts
            (view instance.now) }
    {
        self.root.check(instance, ctx)
    }

    /// The first error of the walk over the instance; none where the document accepts it (JSON
    /// Schema 2020-12 Core, 4.3.2 and 10), with the context's answer for matches that are left
    /// unfinished.
    ///
    /// An accepted instance takes no memory. The context keeps its answer; of the counts only those
    /// of matchers that were asked and of matches that were left unfinished rise. Where the second
    /// does not, and is below `u64::MAX`, either answer gives this verdict.
    ///
    /// # Errors
    ///
    /// That error, which is of the first step that refuses, and is one of a report of the document
    /// over the instance (where members that nothing allows are told, the first of them alone); or
    /// out of memory.
    pub fn validate<'a>(
        &'a self,
        alloc: Global,
        instance: &'a Value,
        ctx: &mut ValidationContext,
    ) -> Result<(), ValidateError<'a>>
        ensures context { OnlyAsks ctx.old ctx.new }
        ensures ok { (D : Data)
            → IsDocumentValidatorOf (kit K.Leaf R.RegexEngine) self.now D
            → OnOk result
            ((document_meaning (world K.Leaf R.RegexEngine) ctx.old.answer D).accepts
            (view instance.now) ≡ true) }
        ensures invalid { (D : Data)
            → IsDocumentValidatorOf (kit K.Leaf R.RegexEngine) self.now D
            → IfErr result (λ e. IfInvalid e (IsRefusalBy
            (document_meaning (world K.Leaf R.RegexEngine) ctx.old.answer D)
            (view instance.now))) }
        ensures first { IfErr result (λ e. IfInvalid e (IsLikeOneOf (first_faults
            (kit K.Leaf R.RegexEngine) self.now ctx.old.answer (view instance.now)))) }
        ensures certain { (D : Data)
            → IsDocumentValidatorOf (kit K.Leaf R.RegexEngine) self.now D
            → IfTold result (IsCertain ctx.old ctx.new
            (λ u. (document_meaning (world K.Leaf R.RegexEngine) u D).accepts
            (view instance.now))) }
    {
        let node = Node::Value(instance);
        let mut path = InstancePath::new(alloc);
        self.root.validate(alloc, node, &mut path, ctx)
    }

    /// Appends all errors of the instance: a report of the document over it (JSON Schema 2020-12
    /// Core, 4.3.2 and 10), with the context's answer for matches that are left unfinished. None is
    /// appended exactly where the document accepts the instance.
    ///
    /// The path of a member is written for an error alone. The context keeps its answer; of the
    /// counts only those of matchers that were asked and of matches that were left unfinished rise.
    /// Where the second does not, and is below `u64::MAX`, either answer gives this verdict.
    ///
    /// # Errors
    ///
    /// Out of memory, and then the list is as before.
    pub fn collect_errors<'a>(
        &'a self,
        alloc: Global,
        instance: &'a Value,
        ctx: &mut ValidationContext,
        errors: &mut Vec<ValidationError<'a>>,
    ) -> Result<(), AllocError>
        ensures context { OnlyAsks ctx.old ctx.new }
        ensures report { (D : Data)
            → IsDocumentValidatorOf (kit K.Leaf R.RegexEngine) self.now D
            → OnOk result (Appends errors.old.items errors.new.items
            ((document_meaning (world K.Leaf R.RegexEngine) ctx.old.answer D).report
            (view instance.now) [] [])) }
        ensures verdict { (D : Data)
            → IsDocumentValidatorOf (kit K.Leaf R.RegexEngine) self.now D
            → OnOk result (nat_eq (length errors.new.items) (length errors.old.items)
            ≡ (document_meaning (world K.Leaf R.RegexEngine) ctx.old.answer D).accepts
            (view instance.now)) }
        ensures memory { OnErr result (errors.new.items ≡ errors.old.items) }
        ensures certain { (D : Data)
            → IsDocumentValidatorOf (kit K.Leaf R.RegexEngine) self.now D
            → OnOk result (IsCertain ctx.old ctx.new
            (λ u. (document_meaning (world K.Leaf R.RegexEngine) u D).accepts
            (view instance.now))) }
    {
        let instance = Node::Value(instance);
        let mut path = InstancePath::new(alloc);
        self.root
            .collect_errors(alloc, instance, &mut path, ctx, errors)
    }

    /// What the document shows of the instance: a tree of results, with their annotations and
    /// errors (JSON Schema 2020-12 Core, 7.7 and 12), with the context's answer for matches that
    /// are left unfinished.
    ///
    /// The context keeps its answer; of the counts only those of matchers that were asked and of
    /// matches that were left unfinished rise. Where the second does not, and is below `u64::MAX`,
    /// either answer gives this verdict.
    ///
    /// # Errors
    ///
    /// Out of memory.
    pub fn evaluate<'a>(
        &'a self,
        alloc: Global,
        instance: &'a Value,
        ctx: &mut ValidationContext,
    ) -> Result<Evaluation<'a>, AllocError>
        ensures context { OnlyAsks ctx.old ctx.new }
        ensures tree { IfOk result
            (λ e. (D : Data) → IsDocumentValidatorOf (kit K.Leaf R.RegexEngine) self.now D
            → IsLikeTree ((document_meaning (world K.Leaf R.RegexEngine) ctx.old.answer D).tree
            (view instance.now) [] []) (evaluated e)) }
        ensures verdict { IfOk result
            (λ e. (D : Data) → IsDocumentValidatorOf (kit K.Leaf R.RegexEngine) self.now D
            → valid_tree (evaluated e)
            ≡ (document_meaning (world K.Leaf R.RegexEngine) ctx.old.answer D).accepts
            (view instance.now)) }
        ensures certain { IfOk result
            (λ e. (D : Data) → IsDocumentValidatorOf (kit K.Leaf R.RegexEngine) self.now D
            → IsCertain ctx.old ctx.new
            (λ u. (document_meaning (world K.Leaf R.RegexEngine) u D).accepts
            (view instance.now))) }
    {
        let node = Node::Value(instance);
        let mut path = InstancePath::new(alloc);
        let outcome = self.root.evaluate(alloc, node, &mut path, ctx)?;
        let location = self.root.location.as_str();
        let root = EvaluationNode::new(location, String::new(alloc), outcome);
        Ok(Evaluation::new(root))
    }
}
