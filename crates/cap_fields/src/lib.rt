//! Structures of messages by the places of their children: written from leaves, read by place; codes by their places in their lists.
#![tactic(auto)]

mod build;
mod codes;
mod read;
mod refused;
mod sales;

pub use build::{leaf_tree, leaves, record, structure, with};
pub use codes::{
    act_at, act_code, reason_at, reason_code, response_at, response_code, set_at, set_code,
    wanted_code,
};
pub use read::{
    account_at, amount_at, children_of, code_at, code6_at, date_at, ident_at, leaf_at, num_at,
    sum_at, tree_at,
};
pub use refused::{read_refused, refused_tree, with_num};
pub use sales::{cancel_tree, chosen, sale_tree, void_tree};
