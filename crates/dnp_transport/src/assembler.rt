//! Fragments from segments.
ghost use Rattle.std.specs.Prelude.{◌≡◌, ◌≤◌, IsTrue, IfOk, OnOk, OnErr, None, length};
ghost use Rattle.dnp_transport.specs.Segment.{carried_octets, is_whole, may_begin};
ghost use Rattle.dnp_transport.specs.Series.{answer_of, step_joining, step, HasLength};

use crate::FRAGMENT_LIMIT;
use crate::answer::{DropCause, Taken};
use crate::header::{carried_octets, is_final, is_first};
use crate::series::Series;
use gw_model::Memory;
use std::alloc::Global;
use std::marker::Model;

/// Puts fragments together from segments in the order in which they come. It holds at most one
/// fragment that has begun.
#[derive(Drop)]
pub struct Assembler {
    alloc: Global,
    series: Option<Series>,
}

impl Model for Assembler {
    ghost use Rattle.std.specs.Prelude.{Option};
    ghost use Rattle.dnp_transport.specs.Series.{Series};

    ghost Value = { Option Series };

    ghost view = { λ a. a.series };
}

impl Assembler {
    /// An assembler that no segment has come to.
    pub fn new(alloc: Global) -> Assembler
        ensures { result ≡ None }
    {
        Assembler {
            alloc,
            series: None,
        }
    }

    /// Takes the next segment, header octet first, of any length. FIR always begins a fragment, and
    /// what had begun before is lost. `Err` changes nothing, and comes only with FIR.
    #[tactic(auto, using(crate::proofs::Lengths::step_length))]
    pub fn segment(&mut self, segment: &[u8]) -> Result<Taken, Memory>
        ensures answer { IfOk result (λ taken. answer_of taken ≡ (step self.old segment.now).0) }
        ensures series { OnOk result (self.new ≡ (step self.old segment.now).1) }
        ensures err { OnErr result (self.new ≡ self.old) }
        ensures length { IfOk result (λ taken. HasLength (answer_of taken)) }
        // Memory is needed only where a fragment begins.
        ensures memory { OnErr result (IsTrue (may_begin segment.now)) }
    {
        if segment.len() < 2 {
            return Ok(Taken::Dropped(DropCause::Empty));
        }
        if is_first(segment) {
            return self.begin(segment);
        }
        match self.series.take() {
            None => Ok(Taken::Dropped(DropCause::Lone)),
            Some(series) => {
                let (taken, left) = series.join(segment);
                self.series = left;
                Ok(taken)
            }
        }
    }

    fn begin(&mut self, segment: &[u8]) -> Result<Taken, Memory>
        requires { IsTrue (is_whole segment.now) }
        ensures answer { IfOk result (λ taken. answer_of taken
            ≡ (step_joining (carried_octets segment.now) segment.now).0) }
        ensures series { OnOk result (self.new ≡ (step_joining (carried_octets segment.now) segment.now).1) }
        ensures err { OnErr result (self.new ≡ self.old) }
        ensures memory { OnErr result (length (carried_octets segment.now) ≤ 2048) }
    {
        let octets = carried_octets(segment);
        if octets.len() > FRAGMENT_LIMIT {
            self.series = None;
            return Ok(Taken::Dropped(DropCause::TooLong));
        }
        if is_final(segment) {
            let fragment = Vec::from_slice(self.alloc, octets)?;
            self.series = None;
            return Ok(Taken::Fragment(fragment));
        }
        self.series = Some(Series::begin(self.alloc, segment)?);
        Ok(Taken::More)
    }
}
