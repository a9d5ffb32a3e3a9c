//! The tests of the crates that search a junction and claim something of it: searches at one cycle and over all
//! cycles, certificates, their checker and reports. They are made as those of `conformance` are.
#![tactic(auto)]

#[cfg(test)]
mod answer_texts;
#[cfg(test)]
mod of_bottleneck_lanes;
#[cfg(test)]
mod of_capacity_search;
#[cfg(test)]
mod of_certificate_checker;
#[cfg(test)]
mod of_cycle_curve;
#[cfg(test)]
mod of_cycle_orders;
#[cfg(test)]
mod of_cycle_search;
#[cfg(test)]
mod of_plan_certificate;
#[cfg(test)]
mod of_report_text;
