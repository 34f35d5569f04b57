//! A piece of the news, for somebody who is no client.
ghost use Rattle.std.specs.Prelude.{◌≡◌, ◌+◌, ◌≤◌, length};
ghost use Rattle.gw_station.specs.Ring.{news_from};

use crate::ring::NewsRing;
use gw_model::Observation;

/// Which of the news were copied.
#[derive(Clone, Copy)]
pub struct NewsPiece {
    /// The number of the first of them: how many came before it.
    pub first: u64,
    /// How many they are.
    pub count: usize,
    /// How many news there were.
    pub total: u64,
}

impl NewsRing {
    /// Copies the news from a number on, as many as find room, and tells which they are. Those that aren't kept any more
    /// are passed over.
    pub fn copy_from(&self, number: u64, room: &mut [Observation]) -> NewsPiece
        ensures room { length room.new ≡ length room.old }
        ensures few { result.count ≤ length room.old }
        ensures total { result.total ≡ self.now.next }
        ensures within { result.first + result.count ≤ self.now.next }
    {
        let (front, back) = self.slices_from(number);
        let of_front = front.len().min(room.len());
        room[..of_front].copy_from_slice(&front[..of_front]);
        let of_back = back.len().min(room.len() - of_front);
        room[of_front..of_front + of_back].copy_from_slice(&back[..of_back]);
        NewsPiece {
            first: self.first_number(number),
            count: of_front + of_back,
            total: self.next(),
        }
    }

    /// The number of the first that is kept from a number on; that of the next where none is.
    fn first_number(&self, number: u64) -> u64
        ensures { result + length (news_from number self.now) ≡ self.now.next }
    {
        self.next() - self.count_from(number) as u64
    }
}
