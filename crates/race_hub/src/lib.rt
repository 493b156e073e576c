//! A hub lets goroutines that wait go on, one event at a time, tells each what its row of the table says, and records the run.
#![tactic(auto)]

mod ending;
mod fields;
mod firing;
mod hub;
mod job;
pub mod laws;
mod log;
mod logs;
mod moves;
mod opening;
mod recording;
mod routine;
mod track;
mod waiters;

pub use ending::End;
pub use hub::{Hub, SubmitFault};
pub use job::Job;
pub use log::Log;
pub use opening::HubFault;
pub use race_requests::{
    Answer, Ask, Board, Choice, Found, Offer, Offers, OffersFull, Request, Step, Waiter,
    WaitingList, answer_of, can_go_on, can_make, can_meet, find, fits_step, lone_event, meet_event,
    pick_choice,
};
pub use recording::{Mismatch, Recording};
pub use routine::{Boxed, Routine};
