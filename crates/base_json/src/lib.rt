//! JSON texts that are put together piece by piece, as `serde_json` prints a value.
#![tactic(auto)]

mod text;

pub use text::{
    push_begin, push_key, push_list, push_number, push_number_member, push_text, push_text_member,
};
