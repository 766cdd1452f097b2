//! A node, as the tests look at it. Their functions take any node that is shown and name the real
//! one once, since a type that is written out is dear to prove.
use object_logic::SchemaNode;
use olk_base_tests::doubles::{EqualTo, NoText};
use olk_tree::{Body, RequiredValidator};

pub(crate) type PlainNode = SchemaNode<NoText, EqualTo>;

pub(crate) trait Shown {
    /// Where it stands.
    fn place(&self) -> &str;

    /// Its names, if it is a list of these.
    fn names(&self) -> Option<&RequiredValidator>;

    /// How many keywords it has, if it is an object that has some.
    fn keyword_count(&self) -> Option<usize>;
}

impl Shown for PlainNode {
    fn place(&self) -> &str {
        self.location().as_str()
    }

    fn names(&self) -> Option<&RequiredValidator> {
        match &self.body {
            Body::RequiredNames(names) => Some(&**names),
            _ => None,
        }
    }

    fn keyword_count(&self) -> Option<usize> {
        match &self.body {
            Body::Keywords(keywords) => Some(keywords.len()),
            _ => None,
        }
    }
}
