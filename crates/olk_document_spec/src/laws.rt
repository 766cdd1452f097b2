//! The laws of the meaning of documents, each the contract of a function that does nothing.

ghost use Rattle.olk_document_spec.specs.Laws.{Conservative, Followed_more_often, Same_malformations, Verdict_of_reports, Verdict_of_trees};

/// A schema in which no keyword of a document occurs means for a document what it means for the
/// layer, and is malformed where it is for the layer.
pub fn conservative()
    ensures meaning { Conservative }
    ensures malformations { Same_malformations }
{}

/// A document accepts a value exactly where it finds no fault in it, whatever its references are.
pub fn one_verdict()
    ensures { Verdict_of_reports }
{}

/// The tree of a document over a value is valid exactly where the document accepts the value,
/// whatever its references are, for every document and value in which no object has a name twice
/// (RFC 8259, 4).
pub fn tree_verdict()
    ensures { Verdict_of_trees }
{}

/// Where references, followed as often as they are for the meaning of a document, lead to no other
/// one, wherever they stand, the document means the same if they are followed more often.
pub fn enough_followed()
    ensures { Followed_more_often }
{}
