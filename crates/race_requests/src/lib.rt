//! What goroutines ask: a table says what each does and is told, and a list of those that wait says which events may come next.
#![tactic(auto)]

mod board;
mod choice;
pub mod laws;
mod list;
mod making;
mod meet;
mod offers;
mod possible;
mod receivers;
mod request;
mod search;
mod sound;
mod table;

pub use board::WaitingList;
pub use choice::Choice;
pub use list::RequestList;
pub use making::lone_event;
pub use meet::{can_meet, meet_event};
pub use offers::{Offers, OffersFull, offers_keep_their_range};
pub use possible::can_go_on;
pub use request::{Answer, Ask, Offer, Request, Step, Waiter};
pub use search::{Board, Found, find, pick_choice};
pub use sound::{is_out_of_turn, is_sound};
pub use table::{answer_of, can_make, fits_step};
