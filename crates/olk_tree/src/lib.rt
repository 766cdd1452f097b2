//! Validators, and what they hold: what they mean and what they report, over the nodes that they
//! are generic in.
//!
//! `BuiltNode` is a node as building knows it. Stands on `olk_reports` and `olk_meaning`. Tested by
//! `olk_node_tests`.
#![tactic(auto)]

pub mod additional_properties;
pub mod all_of;
pub mod answers;
pub mod any_of;
pub mod big_map;
pub mod built_node;
pub mod declared;
pub mod dependencies;
pub mod entries;
pub mod if_;
pub mod map;
pub mod map_ref;
pub mod means;
pub mod names;
pub mod node;
pub mod not;
pub mod one_of;
pub mod pattern_properties;
pub mod pattern_table;
pub mod properties;
pub mod properties_map;
pub mod property_dependencies;
pub mod property_names;
pub mod required;
pub mod rows;
pub mod sorted_name;
pub mod validators_map;

pub use big_map::BigMap;
pub use built_node::BuiltNode;
pub use entries::Entries;
pub use map::SmallMap;
pub use map_ref::MapRef;
pub use means::{Means, Reports};
pub use names::SortedNames;
pub use node::{Body, KeywordOver};
pub use properties_map::PropertiesMap;
pub use required::RequiredValidator;
pub use sorted_name::SortedName;
pub use validators_map::PropertiesValidatorsMap;
