//! What validators mean, and what they report.
ghost use Rattle.serde_json.specs.Data.{Data};

/// On the other side stands one meaning, by which all ways of asking go; there is nothing to call.
///
/// Validators, keywords, bodies and nodes have it. No caller implements it, except for a validator
/// of their own.
pub trait Means {
    ghost use Rattle.olk_tree.specs.Questions.{Question};

    // whether it accepts a value, and how many matchers it may ask
    ghost means: { Self → Data → Question };
}

/// On the other side stand the faults in a value, all and first; there is nothing to call.
///
/// There are none, and none is first, exactly in the values that are accepted. No caller implements
/// it, except for a validator of their own.
pub trait Reports: Means {
    ghost use Rattle.std.specs.Prelude.{◌≡◌, Bool, List};
    ghost use Rattle.olk_spec.specs.Names.{Path, is_empty};
    ghost use Rattle.olk_spec.specs.Faults.{Fault};

    // the faults in a value at a path, and those of its first step that refuses, for either answer
    // for unfinished matches
    ghost report: { Self → Bool → Data → Path → List Fault };

    ghost first: { Self → Bool → Data → Path → List Fault };

    ghost agrees: { (x : Self) (u : Bool) (v : Data) (Q : Path)
        → is_empty (report x u v Q) ≡ (Self.means x v).accepts u };

    ghost first_agrees: { (x : Self) (u : Bool) (v : Data) (Q : Path)
        → is_empty (first x u v Q) ≡ (Self.means x v).accepts u };
}
