//! A schema that is ready to be asked.
ghost use Rattle.std.specs.Prelude.{◌≡◌, ◌≤◌, ◌<◌, ◌-◌, ◌^◌, min, [], true, false, nat_eq, length, IfOk, IfErr, OnOk, OnErr};
ghost use Rattle.serde_json.specs.Data.{Data};
ghost use Rattle.serde_json.specs.View.{view};
ghost use Rattle.olk_spec.specs.Meaning.{accepts, report, asks, IsTree};
ghost use Rattle.olk_spec.specs.Tree.{is_valid as valid_tree};
ghost use Rattle.olk_reports.specs.Entries.{evaluated};
ghost use Rattle.olk_spec.specs.Malformed.{malformations};
ghost use Rattle.olk_spec.specs.Costs.{cost};
ghost use Rattle.olk_base.specs.Count.{raised};
ghost use Rattle.olk_base.specs.Kit.{kit, world};
ghost use Rattle.olk_check.specs.Asks.{OnlyAsks, IsCertain};
ghost use Rattle.olk_build.specs.Refusing.{TellsOneOf, Spends, SpendsWithin};
ghost use Rattle.olk_errors.specs.Found.{Appends, IfInvalid, IfTold, IsLikeOneOf, IsRefusal};
ghost use Rattle.object_logic.specs.Validators.{IsValidatorOf, first_faults, left_unfinished, validators_in};
ghost use Rattle.olk_meaning.specs.Chosen.{validators};

use crate::SchemaNode;
use olk_base::{Leaf, MakeLeaf, MakeRegex, Meter, Node, RegexEngine, ValidationContext};
use olk_build::{Context, compile};
use olk_check::Check;
use olk_errors::Errors;
use olk_evaluate::Evaluate;
use olk_reports::{
    BuildError, Evaluation, EvaluationNode, InstancePath, ValidateError, ValidationError,
};
use serde_json::Value;
use std::alloc::{AllocError, Global};

/// The meter that a build counted on. Without this the counts are lost with the context's place.
fn meter_of<'c, L, M>(ctx: Context<'c, L, M>) -> &'c mut Meter
    ensures same_meter { result.ghost_name ≡ ctx.entry.meter.ghost_name }
    ensures counts { result.now ≡ ctx.entry.meter.now }
{
    ctx.meter
}

/// A schema that is ready to be asked, with its leaves and matchers.
#[derive(Drop)]
pub struct Validator<K, R> {
    root: SchemaNode<K, R>,
}

impl<K: Leaf, R: RegexEngine> Validator<K, R> {
    /// Builds the validator of a schema, with the leaves and the matchers that the makers give.
    ///
    /// Each keyword has the validator that its value and its neighbours choose, at each place that
    /// is read. The meter rises by what the schema costs, each subschema being compiled once, or by
    /// a part of it where nothing is built.
    ///
    /// # Errors
    ///
    /// A malformed schema is refused with one of its malformations (JSON Schema 2020-12 Core, 4.3,
    /// and the shapes of the keywords), and only such a schema is. Without memory nothing is said
    /// of the schema.
    pub fn build<'s, L: MakeLeaf<Leaf = K>, M: MakeRegex<Engine = R>>(
        alloc: Global,
        leaves: &L,
        regexes: &M,
        schema: &'s Value,
        meter: &mut Meter,
    ) -> Result<Validator<K, R>, BuildError<'s>>
        ensures stands { IfOk result
            (λ v. IsValidatorOf (kit K.Leaf R.RegexEngine) v (view schema.now)) }
        ensures validators { IfOk result (λ v. validators_in (kit K.Leaf R.RegexEngine) v
            ≡ validators (world K.Leaf R.RegexEngine) (view schema.now) []) }
        ensures clean { OnOk result
            (malformations (world K.Leaf R.RegexEngine) (view schema.now) ≡ []) }
        ensures refused { IfErr result (TellsOneOf
            (malformations (world K.Leaf R.RegexEngine) (view schema.now))) }
        ensures costs { OnOk result (Spends meter.old meter.new
            (cost (world K.Leaf R.RegexEngine) (view schema.now))) }
        ensures costs_at_most { OnErr result (SpendsWithin meter.old meter.new
            (cost (world K.Leaf R.RegexEngine) (view schema.now))) }
    {
        let mut ctx = Context::new(alloc, leaves, regexes, meter);
        let built = compile(alloc, &mut ctx, schema);
        let _meter = meter_of(ctx);
        Ok(Validator { root: built? })
    }

    /// Whether the schema accepts the instance (JSON Schema 2020-12 Core, 4.3.2 and 10), with the
    /// context's answer for matches that are left unfinished.
    ///
    /// Takes no memory. The context keeps its answer. Of the counts, those of matchers that were
    /// asked and of matches that were left unfinished rise: the first by at most what the schema
    /// asks, the second by at most those of these that the matcher leaves unfinished. Where the
    /// second does not rise, and is below `u64::MAX`, the schema accepts with either answer or with
    /// neither.
    pub fn is_valid(&self, instance: &Value, ctx: &mut ValidationContext) -> bool
        ensures context { OnlyAsks ctx.old ctx.new }
        ensures verdict { (S : Data) → IsValidatorOf (kit K.Leaf R.RegexEngine) self.now S
            → result
            ≡ accepts (world K.Leaf R.RegexEngine) ctx.old.answer S (view instance.now) }
        ensures asked_to { (S : Data) → IsValidatorOf (kit K.Leaf R.RegexEngine) self.now S
            → ctx.new.meter.asked ≤ raised ctx.old.meter.asked
            (asks (world K.Leaf R.RegexEngine) ctx.old.answer S (view instance.now)) }
        ensures unfinished_to { (S : Data) → IsValidatorOf (kit K.Leaf R.RegexEngine) self.now S
            → ctx.new.meter.unfinished ≤ raised ctx.old.meter.unfinished
            (min (asks (world K.Leaf R.RegexEngine) ctx.old.answer S (view instance.now))
            (left_unfinished (kit K.Leaf R.RegexEngine) self.now ctx.old.answer
            (view instance.now))) }
        ensures certain { (S : Data) → IsValidatorOf (kit K.Leaf R.RegexEngine) self.now S
            → ctx.new.meter.unfinished ≡ ctx.old.meter.unfinished
            → ctx.old.meter.unfinished < 2 ^ 64 - 1
            → accepts (world K.Leaf R.RegexEngine) true S (view instance.now)
            ≡ accepts (world K.Leaf R.RegexEngine) false S (view instance.now) }
    {
        self.root.check(instance, ctx)
    }

    /// The first error of the walk over the instance; none where the schema accepts it (JSON Schema
    /// 2020-12 Core, 4.3.2 and 10), with the context's answer for matches that are left unfinished.
    ///
    /// An accepted instance takes no memory. The context keeps its answer; of the counts only those
    /// of matchers that were asked and of matches that were left unfinished rise. Where the second
    /// does not, and is below `u64::MAX`, either answer gives this verdict.
    ///
    /// # Errors
    ///
    /// That error, which is of the first step that refuses, and is one of a report of the schema
    /// over the instance (where members that nothing allows are told, the first of them alone); or
    /// out of memory.
    pub fn validate<'a>(
        &'a self,
        alloc: Global,
        instance: &'a Value,
        ctx: &mut ValidationContext,
    ) -> Result<(), ValidateError<'a>>
        ensures context { OnlyAsks ctx.old ctx.new }
        ensures ok { (S : Data) → IsValidatorOf (kit K.Leaf R.RegexEngine) self.now S
            → OnOk result
            (accepts (world K.Leaf R.RegexEngine) ctx.old.answer S (view instance.now) ≡ true) }
        ensures invalid { (S : Data) → IsValidatorOf (kit K.Leaf R.RegexEngine) self.now S
            → IfErr result (λ e. IfInvalid e
            (IsRefusal (world K.Leaf R.RegexEngine) ctx.old.answer S (view instance.now) [] [])) }
        ensures first { IfErr result (λ e. IfInvalid e (IsLikeOneOf (first_faults
            (kit K.Leaf R.RegexEngine) self.now ctx.old.answer (view instance.now)))) }
        ensures certain { (S : Data) → IsValidatorOf (kit K.Leaf R.RegexEngine) self.now S
            → IfTold result (IsCertain ctx.old ctx.new
            (λ u. accepts (world K.Leaf R.RegexEngine) u S (view instance.now))) }
    {
        let node = Node::Value(instance);
        let mut path = InstancePath::new(alloc);
        self.root.validate(alloc, node, &mut path, ctx)
    }

    /// Appends all errors of the instance: a report of the schema over it (JSON Schema 2020-12
    /// Core, 4.3.2 and 10), with the context's answer for matches that are left unfinished. None is
    /// appended exactly where the schema accepts the instance.
    ///
    /// The path of a member is written for an error alone. The context keeps its answer; of the
    /// counts only those of matchers that were asked and of matches that were left unfinished rise.
    /// Where the second does not, and is below `u64::MAX`, either answer gives this verdict.
    ///
    /// # Errors
    ///
    /// Out of memory, and then the list is as before.
    pub fn collect_errors<'a>(
        &'a self,
        alloc: Global,
        instance: &'a Value,
        ctx: &mut ValidationContext,
        errors: &mut Vec<ValidationError<'a>>,
    ) -> Result<(), AllocError>
        ensures context { OnlyAsks ctx.old ctx.new }
        ensures report { (S : Data) → IsValidatorOf (kit K.Leaf R.RegexEngine) self.now S
            → OnOk result (Appends errors.old.items errors.new.items
            (report (world K.Leaf R.RegexEngine) ctx.old.answer S (view instance.now) [] [])) }
        ensures verdict { (S : Data) → IsValidatorOf (kit K.Leaf R.RegexEngine) self.now S
            → OnOk result (nat_eq (length errors.new.items) (length errors.old.items)
            ≡ accepts (world K.Leaf R.RegexEngine) ctx.old.answer S (view instance.now)) }
        ensures memory { OnErr result (errors.new.items ≡ errors.old.items) }
        ensures certain { (S : Data) → IsValidatorOf (kit K.Leaf R.RegexEngine) self.now S
            → OnOk result (IsCertain ctx.old ctx.new
            (λ u. accepts (world K.Leaf R.RegexEngine) u S (view instance.now))) }
    {
        let instance = Node::Value(instance);
        let mut path = InstancePath::new(alloc);
        self.root
            .collect_errors(alloc, instance, &mut path, ctx, errors)
    }

    /// What the schema shows of the instance: a tree of results, with their annotations and errors
    /// (JSON Schema 2020-12 Core, 7.7 and 12), with the context's answer for matches that are left
    /// unfinished.
    ///
    /// The context keeps its answer; of the counts only those of matchers that were asked and of
    /// matches that were left unfinished rise. Where the second does not, and is below `u64::MAX`,
    /// either answer gives this verdict.
    ///
    /// # Errors
    ///
    /// Out of memory.
    pub fn evaluate<'a>(
        &'a self,
        alloc: Global,
        instance: &'a Value,
        ctx: &mut ValidationContext,
    ) -> Result<Evaluation<'a>, AllocError>
        ensures context { OnlyAsks ctx.old ctx.new }
        ensures tree { IfOk result
            (λ e. (S : Data) → IsValidatorOf (kit K.Leaf R.RegexEngine) self.now S
            → IsTree (world K.Leaf R.RegexEngine) ctx.old.answer
            S (view instance.now) [] [] (evaluated e)) }
        ensures verdict { IfOk result
            (λ e. (S : Data) → IsValidatorOf (kit K.Leaf R.RegexEngine) self.now S
            → valid_tree (evaluated e)
            ≡ accepts (world K.Leaf R.RegexEngine) ctx.old.answer S (view instance.now)) }
        ensures certain { IfOk result
            (λ e. (S : Data) → IsValidatorOf (kit K.Leaf R.RegexEngine) self.now S
            → IsCertain ctx.old ctx.new
            (λ u. accepts (world K.Leaf R.RegexEngine) u S (view instance.now))) }
    {
        let node = Node::Value(instance);
        let mut path = InstancePath::new(alloc);
        let outcome = self.root.evaluate(alloc, node, &mut path, ctx)?;
        let location = self.root.location().as_str();
        let root = EvaluationNode::new(location, String::new(alloc), outcome);
        Ok(Evaluation::new(root))
    }
}
