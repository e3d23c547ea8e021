//! A list of unknowns with picked edges: its parts by dependence, and its joint problem, the greatest vector that the edges support.
#![tactic(auto)]

mod based;
mod block;
mod cells;
mod classes;
mod closure;
mod cut;
mod cutting;
mod group;
mod homes;
mod joined;
mod joint_problem;
mod joint_rows;
mod layout;
mod nearby;
mod node;
mod part_lists;
mod point;
mod problem;
mod read;
mod row;
mod solve;
mod span;
mod table;
mod waiting;

pub use cells::joint_cells;
pub use cut::parts;
pub use joined::Joined;
pub use part_lists::Parts;
pub use point::Traces;
pub use solve::joint;
