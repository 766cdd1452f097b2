//! Pointers to the values and names that errors are about.
use olk_base::Node;
use olk_reports::{Location, ValidationError, ValidationErrorKind};
use std::alloc::{AllocError, Global};

/// What an error is about: a value, or a member's name.
#[derive(Drop)]
pub struct Target {
    /// Leads to the value, or to that of the member (JSON Pointer, RFC 6901).
    pub pointer: String,
    /// It is the name that is at fault.
    pub is_name: bool,
}

impl Target {
    /// Of an error: the name that `propertyNames` refuses, the first of the names that
    /// `additionalProperties` doesn't allow, and else the value.
    ///
    /// # Errors
    ///
    /// Out of memory.
    pub fn of(alloc: Global, error: &ValidationError<'_>) -> Result<Target, AllocError> {
        let mut pointer = String::from_str(alloc, error.instance_path())?;
        let name = faulty_name(error);
        if let Some(name) = name {
            let below = Location::new(alloc).join(alloc, name)?;
            pointer.push_str(below.as_str())?;
        }
        Ok(Target {
            pointer,
            is_name: name.is_some(),
        })
    }
}

/// The name that is at fault, if it is one.
fn faulty_name<'e>(error: &'e ValidationError<'_>) -> Option<&'e str> {
    match error.kind() {
        ValidationErrorKind::AdditionalProperties { unexpected } => unexpected.first().copied(),
        ValidationErrorKind::PropertyNames { error } => name_of(error.instance()),
        _ => name_of(error.instance()),
    }
}

fn name_of(node: Node<'_>) -> Option<&str> {
    match node {
        Node::Name(name) => Some(name),
        Node::Value(_) => None,
    }
}

/// A member's name as it stands in a pointer (RFC 6901, 3).
///
/// # Errors
///
/// Out of memory.
pub fn segment_text(alloc: Global, name: &str) -> Result<String, AllocError> {
    let place = Location::new(alloc).join(alloc, name)?;
    let segment = place.as_str().strip_prefix('/').unwrap_or("");
    String::from_str(alloc, segment)
}
