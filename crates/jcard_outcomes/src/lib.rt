//! What cuts of the power left of a card: how the heaps and answers compare with those before and after; what came of files of rows; and the texts
//! that report it.
#![tactic(auto)]

pub mod answers;
pub mod card_rows;
pub mod command_shares;
pub mod comparison;
pub mod each;
pub mod failure;
pub mod heaps;
pub mod join;
pub mod join_fault;
pub mod junit;
mod line;
pub mod models;
mod order;
pub mod part;
pub mod recoveries;
pub mod report;
pub mod row;
pub mod row_report;
pub mod rows;
pub mod standing;
pub mod sweep_head;
pub mod sweep_kind;
pub mod tested;
pub mod verdict;
