//! What is wrong with a value or with a schema, and its text.
ghost use Rattle.std.specs.Prelude.{◌≡◌, false, string_bytes, IfOk};
ghost use Rattle.serde_json.specs.View.{view};
ghost use Rattle.olk_base.specs.Nodes.{data_of};
ghost use Rattle.olk_spec.specs.Faults.{fault, Not, LeafRefused};
ghost use Rattle.olk_spec.specs.Reports.{wrapped};
ghost use Rattle.olk_spec.specs.Texts.{keyword as keyword_name, text, kind_text, kind_prints_fraction};
ghost use Rattle.olk_reports.specs.Errors.{kind_of};
ghost use Rattle.olk_reports.specs.Messages.{has_error_inside};

use crate::message::{
    ending_text, joined_text, name_text, names_text, node_text, required_text, starting_text,
    type_error_text,
};
use crate::{Location, PathText};
use olk_base::{JsonType, Node, quoted_text};
use serde_json::Value;
use std::alloc::{AllocError, Global};

/// Where the text of a schema path is kept.
#[derive(Drop)]
enum SchemaPath<'a> {
    Borrowed(&'a str),
    Owned(Location),
    /// In the error inside.
    Inner,
}

/// What is wrong with a value, or with a schema that was to be built: a kind, the value, where it
/// stands in the instance, and the keyword's place in the schema.
#[cycle(error)]
pub struct ValidationError<'a> {
    kind: ValidationErrorKind<'a>,
    instance: Node<'a>,
    instance_path: PathText,
    schema_path: SchemaPath<'a>,
}

// By hand, so that the crates above drop an error by one call.
impl Drop for ValidationError<'_> {
    fn drop(self) {
        let ValidationError {
            kind: _kind,
            instance: _instance,
            instance_path: _instance_path,
            schema_path: _schema_path,
        } = self;
    }
}

/// What an error says. The last six kinds are of building, the others of validating.
#[derive(Drop)]
#[cycle(error)]
pub enum ValidationErrorKind<'a> {
    /// Members that no schema allows (JSON Schema 2020-12 Core, 10.3.2.3).
    AdditionalProperties {
        unexpected: Vec<&'a str>,
    },
    /// No subschema accepts (Core, 10.2.1.2); the context has what each of them finds.
    AnyOf {
        context: Vec<Vec<ValidationError<'a>>>,
    },
    /// No subschema accepts (Core, 10.2.1.3); the context has what each of them finds.
    OneOfNotValid {
        context: Vec<Vec<ValidationError<'a>>>,
    },
    /// More than one subschema accepts (Core, 10.2.1.3); the context has what each of them finds.
    OneOfMultipleValid {
        context: Vec<Vec<ValidationError<'a>>>,
    },
    /// The schema accepts that must not (Core, 10.2.1.4).
    Not {
        schema: &'a Value,
    },
    /// A member is absent (Validation, 6.5.3 and 6.5.4).
    Required {
        property: &'a str,
    },
    /// The schema is `false` (Core, 4.3.2).
    FalseSchema,
    /// A member's name is refused (Core, 10.3.2.4); the error inside says why.
    PropertyNames {
        error: Box<ValidationError<'a>>,
    },
    /// A leaf keyword refuses, in its own words.
    Leaf {
        keyword: &'a str,
        text: String,
    },
    /// A keyword's value is not of this type.
    SingleType {
        expected: JsonType,
    },
    /// What is to be a schema is neither a truth value nor an object (Core, 4.3).
    MultipleTypes,
    /// A list has the same name twice.
    UniqueItems,
    /// The matcher refuses this pattern.
    Regex,
    /// A keyword that this library does not build.
    Unsupported {
        keyword: &'a str,
    },
    /// A leaf keyword does not take this value.
    LeafRefused {
        keyword: &'a str,
    },
}

/// Why there is no validator: the schema is refused, or there was no memory.
#[derive(Drop)]
pub enum BuildError<'a> {
    /// The schema is refused.
    Refused(ValidationError<'a>),
    /// There was no memory.
    Memory(AllocError),
}

/// Why a value was not found valid: something is wrong with it, or there was no memory.
#[derive(Drop)]
pub enum ValidateError<'a> {
    /// Something is wrong with the value.
    Invalid(ValidationError<'a>),
    /// There was no memory.
    Memory(AllocError),
}

impl<'a> From<AllocError> for BuildError<'a> {
    ghost use Rattle.olk_reports.specs.declared.error.BuildError.TheVariants.{Memory};

    ghost from_gives = { λ a e. e ≡ Memory a };

    /// Gives `Memory`.
    fn from(error: AllocError) -> BuildError<'a> {
        BuildError::Memory(error)
    }
}

impl<'a> From<AllocError> for ValidateError<'a> {
    ghost use Rattle.olk_reports.specs.declared.error.ValidateError.TheVariants.{Memory};

    ghost from_gives = { λ a e. e ≡ Memory a };

    /// Gives `Memory`.
    fn from(error: AllocError) -> ValidateError<'a> {
        ValidateError::Memory(error)
    }
}

impl<'a> ValidationErrorKind<'a> {
    /// The name of the keyword that finds errors of this kind, `falseSchema` for a false schema; of
    /// a kind of building the empty text.
    #[tactic(auto, using(crate::proofs::Errors::kinds))]
    pub fn keyword(&self) -> &'a str
        ensures { result.now ≡ keyword_name (kind_of self.now) }
    {
        match self {
            ValidationErrorKind::AdditionalProperties { unexpected: _ } => "additionalProperties",
            ValidationErrorKind::AnyOf { context: _ } => "anyOf",
            ValidationErrorKind::OneOfNotValid { context: _ } => "oneOf",
            ValidationErrorKind::OneOfMultipleValid { context: _ } => "oneOf",
            ValidationErrorKind::Not { schema: _ } => "not",
            ValidationErrorKind::Required { property: _ } => "required",
            ValidationErrorKind::FalseSchema => "falseSchema",
            ValidationErrorKind::PropertyNames { error: _ } => "propertyNames",
            ValidationErrorKind::Leaf { keyword, text: _ } => keyword,
            _ => "",
        }
    }
}

impl<'a> ValidationError<'a> {
    ghost use Rattle.olk_reports.specs.Errors.{value_of, fault_of, fault_kind, fault_instance, fault_instance_path, fault_schema_path};
    ghost use Rattle.olk_spec.specs.Texts.{prints_fraction};

    /// An error of validating.
    pub fn new(
        kind: ValidationErrorKind<'a>,
        instance: Node<'a>,
        instance_path: String,
        schema_path: &'a str,
    ) -> Self
        ensures value { value_of result ≡ instance.entry }
        ensures fault { fault_of result
            ≡ fault (kind_of kind.entry) (data_of instance.entry)
            (string_bytes instance_path) schema_path.now }
    {
        ValidationError::at(kind, instance, PathText::from(instance_path), schema_path)
    }

    /// An error of validating, with the text of its path as it is kept.
    pub fn at(
        kind: ValidationErrorKind<'a>,
        instance: Node<'a>,
        instance_path: PathText,
        schema_path: &'a str,
    ) -> Self
        ensures value { value_of result ≡ instance.entry }
        ensures fault { fault_of result
            ≡ fault (kind_of kind.entry) (data_of instance.entry) instance_path schema_path.now }
    {
        let schema_path = SchemaPath::Borrowed(schema_path);
        ValidationError {
            kind,
            instance,
            instance_path,
            schema_path,
        }
    }

    /// An error of building: the place is a text of its own.
    pub fn refusing(
        kind: ValidationErrorKind<'a>,
        instance: Node<'a>,
        instance_path: String,
        schema_path: Location,
    ) -> Self
        ensures value { value_of result ≡ instance.entry }
        ensures fault { fault_of result
            ≡ fault (kind_of kind.entry) (data_of instance.entry)
            (string_bytes instance_path) schema_path }
    {
        ValidationError {
            kind,
            instance,
            instance_path: PathText::from(instance_path),
            schema_path: SchemaPath::Owned(schema_path),
        }
    }

    /// An error of a member's name, told of the object: kind `PropertyNames`, with the schema path
    /// of the error inside.
    pub fn wrapping(
        error: Box<ValidationError<'a>>,
        instance: Node<'a>,
        instance_path: String,
    ) -> Self
        ensures value { value_of result ≡ instance.entry }
        ensures fault { fault_of result
            ≡ wrapped (data_of instance.entry) (string_bytes instance_path)
            (fault_of error.entry.value) }
    {
        ValidationError::wrapping_at(error, instance, PathText::from(instance_path))
    }

    /// The same, with the text of its path as it is kept.
    pub fn wrapping_at(
        error: Box<ValidationError<'a>>,
        instance: Node<'a>,
        instance_path: PathText,
    ) -> Self
        ensures value { value_of result ≡ instance.entry }
        ensures fault { fault_of result
            ≡ wrapped (data_of instance.entry) instance_path (fault_of error.entry.value) }
    {
        ValidationError {
            kind: ValidationErrorKind::PropertyNames { error },
            instance,
            instance_path,
            schema_path: SchemaPath::Inner,
        }
    }

    /// What the error says.
    pub fn kind(&self) -> &ValidationErrorKind<'a>
        ensures { kind_of result.now ≡ fault_kind (fault_of self.now) }
    {
        &self.kind
    }

    /// The value that it is about.
    pub fn instance(&self) -> Node<'a>
        ensures value { result ≡ value_of self.now }
        ensures data { data_of result ≡ fault_instance (fault_of self.now) }
    {
        self.instance
    }

    /// Where that value stands, as a JSON pointer (RFC 6901); of an error of building the empty
    /// text.
    pub fn instance_path(&self) -> &str
        ensures { result.now ≡ fault_instance_path (fault_of self.now) }
    {
        self.instance_path.as_str()
    }

    /// Where the keyword or the false schema stands, as a JSON pointer (RFC 6901).
    pub fn schema_path(&self) -> &str
        ensures { result.now ≡ fault_schema_path (fault_of self.now) }
    {
        match &self.schema_path {
            SchemaPath::Borrowed(text) => text,
            SchemaPath::Owned(location) => location.as_str(),
            SchemaPath::Inner => match &self.kind {
                ValidationErrorKind::PropertyNames { error } => error.schema_path(),
                _ => "",
            },
        }
    }

    /// The error in words; values are written as compact JSON text (RFC 8259).
    ///
    /// Without memory there is none. Of a number that is not a whole number of 64 bits no text is
    /// promised.
    #[tactic(auto, using(crate::proofs::Errors::kinds))]
    pub fn message(&self, alloc: Global) -> Result<String, AllocError>
        ensures { IfOk result (λ s. prints_fraction (fault_of self.now) ≡ false
            → string_bytes s ≡ text (fault_of self.now)) }
    {
        match &self.kind {
            ValidationErrorKind::PropertyNames { error } => Ok(error.message(alloc)?),
            kind => own_text(alloc, kind, self.instance),
        }
    }
}

/// The text of a kind that has no error inside.
#[tactic(auto, using(crate::proofs::Errors::kinds))]
fn own_text(
    alloc: Global,
    kind: &ValidationErrorKind<'_>,
    instance: Node<'_>,
) -> Result<String, AllocError>
    ensures { has_error_inside (kind_of kind.now) ≡ false → IfOk result (λ s.
        kind_prints_fraction (kind_of kind.now) (data_of instance.entry) ≡ false
        → string_bytes s ≡ kind_text (kind_of kind.now) (data_of instance.entry)) }
{
    match kind {
        ValidationErrorKind::AdditionalProperties { unexpected } => {
            names_text(alloc, unexpected.as_slice())
        }
        ValidationErrorKind::AnyOf { context: _ } => starting_text(
            alloc,
            instance,
            " is not valid under any of the schemas listed in the 'anyOf' keyword",
        ),
        ValidationErrorKind::OneOfNotValid { context: _ } => starting_text(
            alloc,
            instance,
            " is not valid under any of the schemas listed in the 'oneOf' keyword",
        ),
        ValidationErrorKind::OneOfMultipleValid { context: _ } => starting_text(
            alloc,
            instance,
            " is valid under more than one of the schemas listed in the 'oneOf' keyword",
        ),
        ValidationErrorKind::Not { schema } => not_text(alloc, schema, instance),
        ValidationErrorKind::Required { property } => required_text(alloc, property),
        ValidationErrorKind::FalseSchema => {
            ending_text(alloc, "False schema does not allow ", instance)
        }
        ValidationErrorKind::PropertyNames { error: _ } => Ok(String::new(alloc)),
        ValidationErrorKind::Leaf { keyword: _, text } => String::from_str(alloc, text.as_str()),
        ValidationErrorKind::SingleType { expected } => type_error_text(alloc, instance, *expected),
        ValidationErrorKind::MultipleTypes => starting_text(
            alloc,
            instance,
            " is not of types \"boolean\", \"object\"",
        ),
        ValidationErrorKind::UniqueItems => starting_text(
            alloc,
            instance,
            " has non-unique elements",
        ),
        ValidationErrorKind::Regex => starting_text(alloc, instance, " is not a \"regex\""),
        ValidationErrorKind::Unsupported { keyword } => name_text(
            alloc,
            keyword,
            " is not supported here",
        ),
        ValidationErrorKind::LeafRefused { keyword } => leaf_refused_text(alloc, keyword, instance),
    }
}

/// The text of the kind `Not`.
fn not_text(alloc: Global, schema: &Value, instance: Node<'_>) -> Result<String, AllocError>
    ensures { IfOk result (λ s.
        kind_prints_fraction (Not (view schema.now)) (data_of instance.entry) ≡ false
        → string_bytes s ≡ kind_text (Not (view schema.now)) (data_of instance.entry)) }
{
    let value = node_text(alloc, instance)?;
    joined_text(
        alloc,
        Node::Value(schema),
        " is not allowed for ",
        value.as_str(),
    )
}

/// The text of the kind `LeafRefused`.
fn leaf_refused_text(alloc: Global, keyword: &str, instance: Node<'_>) -> Result<String, AllocError>
    ensures { IfOk result (λ s.
        kind_prints_fraction (LeafRefused keyword.now) (data_of instance.entry) ≡ false
        → string_bytes s ≡ kind_text (LeafRefused keyword.now) (data_of instance.entry)) }
{
    let name = quoted_text(alloc, keyword)?;
    joined_text(alloc, instance, " is not a value for ", name.as_str())
}
