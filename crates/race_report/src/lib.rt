//! The printed text: the report of a verdict, the lines of edges, those of a witness, the line of a text fault.
#![tactic(auto)]

mod counted;
mod edge_lines;
pub mod examples;
mod fault;
mod noted;
mod rule;
mod verdict;
mod witness_lines;

pub use counted::print_count;
pub use edge_lines::write_edges;
pub use fault::write_text_fault;
pub use noted::write_noted_report;
pub use race_records::WriteFault;
pub use verdict::{
    access_word, print_illegal, print_race, print_race_count, print_report, write_report,
};
pub use witness_lines::write_witness;
