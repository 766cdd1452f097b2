//! What can be asked in four ways. The functions of the tests take anything that can, and name the
//! real validator once, since a type that is written out is dear to prove.
use crate::rows::refusal;
use object_logic::{
    Evaluation, Leaf, MakeLeaf, MakeRegex, Meter, RegexEngine, ValidateError, ValidationContext,
    ValidationError, Validator,
};
use serde_json::Value;
use std::alloc::{AllocError, Global};

/// What can be asked in four ways.
pub(crate) trait Asked {
    fn is_valid(&self, instance: &Value, ctx: &mut ValidationContext) -> bool;

    fn validate<'a>(
        &'a self,
        alloc: Global,
        instance: &'a Value,
        ctx: &mut ValidationContext,
    ) -> Result<(), ValidateError<'a>>;

    fn collect_errors<'a>(
        &'a self,
        alloc: Global,
        instance: &'a Value,
        ctx: &mut ValidationContext,
        errors: &mut Vec<ValidationError<'a>>,
    ) -> Result<(), AllocError>;

    fn evaluate<'a>(
        &'a self,
        alloc: Global,
        instance: &'a Value,
        ctx: &mut ValidationContext,
    ) -> Result<Evaluation<'a>, AllocError>;
}

impl<K: Leaf, R: RegexEngine> Asked for Validator<K, R> {
    fn is_valid(&self, instance: &Value, ctx: &mut ValidationContext) -> bool {
        Validator::is_valid(self, instance, ctx)
    }

    fn validate<'a>(
        &'a self,
        alloc: Global,
        instance: &'a Value,
        ctx: &mut ValidationContext,
    ) -> Result<(), ValidateError<'a>> {
        Validator::validate(self, alloc, instance, ctx)
    }

    fn collect_errors<'a>(
        &'a self,
        alloc: Global,
        instance: &'a Value,
        ctx: &mut ValidationContext,
        errors: &mut Vec<ValidationError<'a>>,
    ) -> Result<(), AllocError> {
        Validator::collect_errors(self, alloc, instance, ctx, errors)
    }

    fn evaluate<'a>(
        &'a self,
        alloc: Global,
        instance: &'a Value,
        ctx: &mut ValidationContext,
    ) -> Result<Evaluation<'a>, AllocError> {
        Validator::evaluate(self, alloc, instance, ctx)
    }
}

/// What is asked of a validator and an instance.
pub(crate) trait Question {
    fn told<V: Asked>(
        &self,
        validator: &V,
        alloc: Global,
        instance: &Value,
    ) -> Result<String, AllocError>;
}

/// What is told of the instance by the schema's validator, or where the schema is refused.
pub(crate) fn told_by<L: MakeLeaf, M: MakeRegex, Q: Question>(
    question: &Q,
    leaves: &L,
    regexes: &M,
    alloc: Global,
    schema: &Value,
    instance: &Value,
) -> Result<String, AllocError> {
    let built = Validator::build(alloc, leaves, regexes, schema, &mut Meter::new());
    let told = match &built {
        Ok(validator) => question.told(validator, alloc, instance),
        Err(error) => refusal(alloc, error),
    };
    drop(built);
    told
}
