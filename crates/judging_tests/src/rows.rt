//! Traces that are told in lines.

use race_records::Trace;
use race_text::parse_trace;
use std::alloc::Global;
use std::test::Fail;

/// The trace of these declarations and these events.
pub(crate) fn traced(alloc: Global, declared: &str, events: &str) -> Result<Trace, Fail> {
    let mut text = String::from_str(alloc, declared)?;
    text.push_str(events)?;
    Ok(parse_trace(alloc, text.as_bytes())?)
}
