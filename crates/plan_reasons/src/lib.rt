//! Why a plan is as it is: for each order how many free wagons pass the tests for it, one after the other, and for each order
//! and wagon what other plans cost more: exactly, each by a plan of its own, or at least, by the prices of the plan's certificate.
//! Of one order or one wagon also why each pair is in the plan or not: what plans that have it cost more, or the first test that
//! the wagon fails.
//!
//! `Err` only when out of memory.
#![tactic(auto)]

mod cell_counts;
mod certified_plan;
mod counts_by_order;
mod failed;
mod failed_line;
mod finders;
mod fit;
mod headings;
mod journey;
mod laws;
mod line_form;
mod numbers;
mod one_text;
mod order_line;
mod pair_line;
mod pair_lists;
mod place_fields;
mod reasons;
mod style;
mod tallies;
mod tested_wagons;
mod twins;
mod wagon_line;
mod why_lines;

pub use certified_plan::CertifiedPlan;
pub use counts_by_order::order_counts;
pub use finders::{find_order, find_wagon};
pub use fit::Fit;
pub use journey::{Journey, journey_of};
pub use laws::{
    fits_are_cheaper, in_time_are_allowed, numbers_are_bounds, tests_narrow,
    texts_are_lines_of_json,
};
pub use line_form::LineForm;
pub use numbers::Numbers;
pub use one_text::{order_text, wagon_text};
pub use reasons::{Counts, way_of};
pub use style::Style;
pub use why_lines::why_text;
