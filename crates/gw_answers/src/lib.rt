//! The answers to ASDUs of a client: what each gets, the answer to an interrogation, and their octets.
#![tactic(auto)]

mod answering;
pub mod examples;
mod interrogation;
pub mod laws;
mod octets;
mod outgoing;

pub use answering::{answer_at_once, command_by, command_with, confirmation_of, places_for, under};
pub use interrogation::{AnswerSection, cause_for, is_accepted_act, sections_of};
pub use octets::{PackedAsdu, answer_asdu, pack};
pub use outgoing::{AsduAnswer, OwnAsdu};
