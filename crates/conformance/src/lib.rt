//! The tests of the crates that make a plan: files, junctions, conflicts, flows, orders, starts, needs,
//! plans, what is played, stretches, stages and delays. Each crate's stand in a module named `of_` and the crate.
//! They stand apart from it, since a crate with tests is proved twice. They hold rows that were worked out
//! by hand or by another program, and one call with ample memory of each call that may answer want of
//! memory. A file is a table and the one function that walks it. What they share stands in `samples`.
#![tactic(auto)]

#[cfg(test)]
mod of_aspect_player;
#[cfg(test)]
mod of_conflict_matrix;
#[cfg(test)]
mod of_constraint_cycles;
#[cfg(test)]
mod of_delay_report;
#[cfg(test)]
mod of_difference_system;
#[cfg(test)]
mod of_flow_model;
#[cfg(test)]
mod of_junction_files;
#[cfg(test)]
mod of_junction_model;
#[cfg(test)]
mod of_least_greens;
#[cfg(test)]
mod of_log_monitor;
#[cfg(test)]
mod of_plan_change;
#[cfg(test)]
mod of_plan_model;
#[cfg(test)]
mod of_plan_stretch;
#[cfg(test)]
mod of_sample_junctions;
#[cfg(test)]
mod of_sig_base;
#[cfg(test)]
mod of_stage_builder;
