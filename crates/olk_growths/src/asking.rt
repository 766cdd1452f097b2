//! A validator of a schema or of a document, by the four ways of asking it.
use object_logic::{
    Evaluation, Leaf, RegexEngine, ValidateError, ValidationContext, ValidationError, Validator,
};
use olk_document::DocumentValidator;
use serde_json::Value;
use std::alloc::{AllocError, Global};

/// What is asked in the four ways.
pub trait Asking {
    fn accepts(&self, instance: &Value, ctx: &mut ValidationContext) -> bool;

    fn first_error<'a>(
        &'a self,
        alloc: Global,
        instance: &'a Value,
        ctx: &mut ValidationContext,
    ) -> Result<(), ValidateError<'a>>;

    fn append_errors<'a>(
        &'a self,
        alloc: Global,
        instance: &'a Value,
        ctx: &mut ValidationContext,
        errors: &mut Vec<ValidationError<'a>>,
    ) -> Result<(), AllocError>;

    fn shown<'a>(
        &'a self,
        alloc: Global,
        instance: &'a Value,
        ctx: &mut ValidationContext,
    ) -> Result<Evaluation<'a>, AllocError>;
}

impl<K: Leaf, R: RegexEngine> Asking for Validator<K, R> {
    fn accepts(&self, instance: &Value, ctx: &mut ValidationContext) -> bool {
        self.is_valid(instance, ctx)
    }

    fn first_error<'a>(
        &'a self,
        alloc: Global,
        instance: &'a Value,
        ctx: &mut ValidationContext,
    ) -> Result<(), ValidateError<'a>> {
        self.validate(alloc, instance, ctx)
    }

    fn append_errors<'a>(
        &'a self,
        alloc: Global,
        instance: &'a Value,
        ctx: &mut ValidationContext,
        errors: &mut Vec<ValidationError<'a>>,
    ) -> Result<(), AllocError> {
        self.collect_errors(alloc, instance, ctx, errors)
    }

    fn shown<'a>(
        &'a self,
        alloc: Global,
        instance: &'a Value,
        ctx: &mut ValidationContext,
    ) -> Result<Evaluation<'a>, AllocError> {
        self.evaluate(alloc, instance, ctx)
    }
}

impl<K: Leaf, R: RegexEngine> Asking for DocumentValidator<K, R> {
    fn accepts(&self, instance: &Value, ctx: &mut ValidationContext) -> bool {
        self.is_valid(instance, ctx)
    }

    fn first_error<'a>(
        &'a self,
        alloc: Global,
        instance: &'a Value,
        ctx: &mut ValidationContext,
    ) -> Result<(), ValidateError<'a>> {
        self.validate(alloc, instance, ctx)
    }

    fn append_errors<'a>(
        &'a self,
        alloc: Global,
        instance: &'a Value,
        ctx: &mut ValidationContext,
        errors: &mut Vec<ValidationError<'a>>,
    ) -> Result<(), AllocError> {
        self.collect_errors(alloc, instance, ctx, errors)
    }

    fn shown<'a>(
        &'a self,
        alloc: Global,
        instance: &'a Value,
        ctx: &mut ValidationContext,
    ) -> Result<Evaluation<'a>, AllocError> {
        self.evaluate(alloc, instance, ctx)
    }
}
