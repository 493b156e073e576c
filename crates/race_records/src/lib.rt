//! Names, events and traces: what a run of goroutines is recorded as, before any judgement.
#![tactic(auto)]

mod alike;
mod cases;
mod decl_keywords;
mod declarations;
mod event;
mod fitting;
mod indexes;
mod keyed;
mod kind;
mod name;
mod names;
mod operands;
mod page;
mod places;
mod shorts;
mod sink;
mod source;
mod trace;
mod version;

pub use cases::{Case, Cases, CasesFull, Dir, MAX_CASES, cases_keep_their_range};
pub use decl_keywords::{DeclKeyword, object_by, object_says};
pub use declarations::{DeclFault, Decls, MAX_PLACES};
pub use event::{Cause, Event, Op};
#[doc(hidden)]
pub use indexes::Indexes;
pub use kind::{Kind, MAX_CAPACITY, MAX_GOROUTINES, MAX_OBJECTS, Named, Object};
pub use name::{MAX_NAME_LEN, MAX_PLACE_LEN, as_text, is_name, is_place};
#[doc(hidden)]
pub use names::{Names, Slot};
pub use operands::{
    OpKeyword, Operand, OperandKind, Operands, failed_at, op_by, operand_kinds, rwmutex_of, says,
};
#[doc(hidden)]
pub use operands::{object_alone, object_value};
pub use page::{BLOCK, Page};
#[doc(hidden)]
pub use places::Places;
#[doc(hidden)]
pub use shorts::{Short, Shorts};
pub use sink::{Sink, WriteFault};
pub use source::Source;
pub use trace::{MAX_EVENTS, PushFault, Trace};
pub use version::Version;
