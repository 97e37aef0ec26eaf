//! Laws of labelled runs, over the definitions of lv_labels: true labels, the walk of the monitor, the number of
//! projections, what valid obligations say of a system's runs, and what the table of labels has to do with them.
//!
//! The crate holds no code. What lv_labels has is given out under the same names.
#![tactic(auto)]

pub mod laws;

pub use lv_labels::{
    Justice, Key, KnownKeys, Label, LabelTable, Move, Which, copied, for_all, free_variables,
    key_of, keys_of, labels_of, number, plain_of, push_shared, push_variables, reading,
    tuple_variables,
};
