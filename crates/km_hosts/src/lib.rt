//! The hosts of one memory, side by side over its pages: sections, tasks, slab blocks, runs of pages, areas.
#![tactic(auto)]

pub mod hosts;
mod refusals;

pub use hosts::Hosts;
