// Two-state monotone structures of 1 to 16 parts: path lists, cut lists, k-out-of-n, layers and the table.
#![tactic(auto)]

pub mod cut_list;
pub mod dual;
pub mod hold;
pub mod k_out_of_n;
pub mod listed;
pub mod order;
pub mod pair;
pub mod path_list;
pub mod refusal;
pub mod set_list;
pub mod structure;
pub mod table;
