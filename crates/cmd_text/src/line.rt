//! The line that is being read.
ghost use Rattle.std.specs.Prelude.{◌≡◌, ◌≤◌, ◌<◌, ◌+◌, ◌^◌, ◌++◌, length, take, IfOk, [], vec_capacity};
ghost use Rattle.cmd_text.specs.Front.{first_front, with_more};

use gw_model::Memory;
use std::alloc::Global;
use std::marker::Model;

/// The line that is being read: its number, from 1 on, and its front, of which at most so many octets are kept.
#[derive(Drop)]
pub struct InputLine {
    kept: Vec<u8>,
    most: usize,
    number: u64,
}

impl Model for InputLine {
    ghost use Rattle.std.specs.Prelude.{length, ◌≤◌, vec_capacity};
    ghost use Rattle.cmd_text.specs.Front.{Front};

    ghost Value = { Front };

    ghost view = { λ l. record { most = l.most; number = l.number; octets = l.kept.items } };

    ghost invariant = { λ l. (length l.kept.items ≤ l.most) × (l.most ≤ vec_capacity l.kept) };
}

impl InputLine {
    /// The first line, with room for all that is kept of one.
    pub fn new(alloc: Global, most: usize) -> Result<InputLine, Memory>
        ensures { IfOk result (λ line. line ≡ first_front most) }
    {
        let kept = Vec::with_capacity(alloc, most)?;
        Ok(InputLine {
            kept,
            most,
            number: 1,
        })
    }

    /// The number of the line.
    pub fn number(&self) -> u64
        ensures { result ≡ self.now.number }
    {
        self.number
    }

    /// What is kept of the line.
    pub fn octets(&self) -> &[u8]
        ensures { result.now ≡ self.now.octets }
    {
        self.kept.as_slice()
    }

    /// Goes on with the line: as many octets as are kept.
    pub fn add(&mut self, piece: &[u8])
        ensures { self.new ≡ with_more self.old piece.now }
    {
        keep(&mut self.kept, self.most, piece);
    }

    /// Begins the next line.
    pub fn begin_next(&mut self)
        requires { self.old.number + 1 < 2 ^ 64 }
        ensures { self.new ≡ record self.old { number = self.old.number + 1; octets = [] } }
    {
        self.kept.clear();
        self.number += 1;
    }
}

/// Goes on with what is kept, as far as there is room.
fn keep(kept: &mut Vec<u8>, most: usize, piece: &[u8])
    requires short { length kept.old.items ≤ most }
    requires room { most ≤ vec_capacity kept.old }
    ensures kept { kept.new.items ≡ take most (kept.old.items ++ piece.now) }
    ensures room { most ≤ vec_capacity kept.new }
{
    let room = most - kept.len();
    if piece.len() <= room {
        let _ = kept.extend_from_slice(piece);
    } else {
        let (front, _) = piece.split_at(room);
        let _ = kept.extend_from_slice(front);
    }
}
