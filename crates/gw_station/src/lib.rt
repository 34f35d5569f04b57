//! The controlled station's part for one client of IEC 60870-5-104, with the answers to its ASDUs: interrogations,
//! reads, what is unknown, and what is said of commands.
#![tactic(auto)]

mod client;
mod cursor;
mod event;
pub mod examples;
pub mod laws;
mod news;
mod news_piece;
mod queue;
mod rest;
mod ring;
pub mod ring_examples;
mod sending;
mod station;

pub use client::Stage;
pub use event::{Event, Said};
pub use iec_apci::Why;
pub use news_piece::NewsPiece;
pub use ring::NewsRing;
pub use sending::Sending;
pub use station::Station;
