// Tables of periodic tasks and speed levels, and admission at the lowest level that keeps every deadline.
#![tactic(auto)]

mod adding;
mod admission;
pub mod answer;
pub mod back;
pub mod level_list;
mod load;
mod passing;
pub mod plan;
mod search;
pub mod table;
pub mod task;
