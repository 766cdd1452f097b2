//! What the keywords and the places of a document mean, and what they report.
ghost use Rattle.olk_documents.specs.Arrays.{prefix_items_answers, items_answers};
ghost use Rattle.olk_documents.specs.Contains.{contains_answers};
ghost use Rattle.olk_documents.specs.References.{reference_answers};
ghost use Rattle.olk_documents.specs.Nodes.{more_of};

use crate::arrays::{Items, PrefixItems};
use crate::contains::Contains;
use crate::node::{DocumentKeyword, DocumentNode};
use crate::reference::Reference;
use olk_base::{Leaf, RegexEngine};
use olk_tree::{Means, Reports};

impl<N: Means> Means for PrefixItems<N> {
    ghost means = { λ k. (prefix_items_answers k).means N.means };
}

impl<N: Reports> Reports for PrefixItems<N> {
    ghost report = { λ k. (prefix_items_answers k).report N.means N.report };

    ghost first = { λ k. (prefix_items_answers k).first N.means N.report N.first };

    ghost agrees = { λ k u. (prefix_items_answers k).agrees N.means N.report u
        (λ n. N.agrees n u) };

    ghost first_agrees = { λ k u. (prefix_items_answers k).first_agrees N.means N.report N.first u
        (λ n. N.first_agrees n u) };
}

impl<N: Means> Means for Items<N> {
    ghost means = { λ k. (items_answers k).means N.means };
}

impl<N: Reports> Reports for Items<N> {
    ghost report = { λ k. (items_answers k).report N.means N.report };

    ghost first = { λ k. (items_answers k).first N.means N.report N.first };

    ghost agrees = { λ k u. (items_answers k).agrees N.means N.report u
        (λ n. N.agrees n u) };

    ghost first_agrees = { λ k u. (items_answers k).first_agrees N.means N.report N.first u
        (λ n. N.first_agrees n u) };
}

impl<N: Means> Means for Contains<N> {
    ghost means = { λ k. (contains_answers k).means N.means };
}

impl<N: Reports> Reports for Contains<N> {
    ghost report = { λ k. (contains_answers k).report N.means N.report };

    ghost first = { λ k. (contains_answers k).first N.means N.report N.first };

    ghost agrees = { λ k u. (contains_answers k).agrees N.means N.report u
        (λ n. N.agrees n u) };

    ghost first_agrees = { λ k u. (contains_answers k).first_agrees N.means N.report N.first u
        (λ n. N.first_agrees n u) };
}

impl<N: Means> Means for Reference<N> {
    ghost means = { λ k. (reference_answers k).means N.means };
}

impl<N: Reports> Reports for Reference<N> {
    ghost report = { λ k. (reference_answers k).report N.means N.report };

    ghost first = { λ k. (reference_answers k).first N.means N.report N.first };

    ghost agrees = { λ k u. (reference_answers k).agrees N.means N.report u
        (λ n. N.agrees n u) };

    ghost first_agrees = { λ k u. (reference_answers k).first_agrees N.means N.report N.first u
        (λ n. N.first_agrees n u) };
}

impl<N: Means> Means for DocumentKeyword<N> {
    ghost means = { λ k. (more_of k).means N.means };
}

impl<N: Reports> Reports for DocumentKeyword<N> {
    ghost report = { λ k. (more_of k).report N.means N.report };

    ghost first = { λ k. (more_of k).first N.means N.report N.first };

    ghost agrees = { λ k u. (more_of k).agrees N.means N.report u
        (λ n. N.agrees n u) };

    ghost first_agrees = { λ k u. (more_of k).first_agrees N.means N.report N.first u
        (λ n. N.first_agrees n u) };
}

impl<K: Leaf, R: RegexEngine> Means for DocumentNode<K, R> {
    ghost use Rattle.olk_base.specs.Kit.{kit};
    ghost use Rattle.olk_documents.specs.Nodes.{answers};

    ghost means = { λ n. (answers (kit K.Leaf R.RegexEngine) n).means };
}

impl<K: Leaf, R: RegexEngine> Reports for DocumentNode<K, R> {
    ghost use Rattle.olk_base.specs.Kit.{kit};
    ghost use Rattle.olk_documents.specs.Nodes.{answers};

    ghost report = { λ n. (answers (kit K.Leaf R.RegexEngine) n).report };

    ghost first = { λ n. (answers (kit K.Leaf R.RegexEngine) n).first };

    ghost agrees = { λ n. (answers (kit K.Leaf R.RegexEngine) n).agrees };

    ghost first_agrees = { λ n. (answers (kit K.Leaf R.RegexEngine) n).first_agrees };
}
