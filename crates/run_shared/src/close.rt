//! The end: all passes come back.
ghost use Rattle.std.specs.Prelude.{◌≡◌, ◌<◌, ◌↔◌, IfErr, IfOk, IsOk, vec_len};
ghost use Rattle.run_shared.specs.Reached.{CourseOf};
ghost use Rattle.run_shared.specs.Totals.{total_of};

use crate::course::Course;
use crate::pass::Pass;
use crate::shared::Shared;
use gw_steps::Machine;
use std::sync::Wait;
use std::sync::ledger::Share;
use thiserror::Error;

/// How many calls were made.
#[derive(Clone, Copy)]
pub struct Closed {
    pub total: u64,
}

/// Why a shared core isn't closed.
#[derive(Clone, Copy, Debug, Error)]
pub enum CloseFault {
    /// Not all passes were handed over.
    #[error("1 Missing")]
    Missing = 1,
}

impl<L: Course, M: Machine> Shared<L, M> {
    /// Ends the counting, where all passes of this core are handed over: gives how many calls were made, which is what
    /// they have counted together. Otherwise it gives them back.
    pub fn close<R: Wait>(
        &self,
        rt: &R,
        passes: Vec<Pass<L>>,
    ) -> Result<Closed, (CloseFault, Vec<Pass<L>>)>
        ensures closes { IsOk result ↔ (vec_len passes ≡ L.parts) }
        ensures total { IfOk result (λ closed. closed.total ≡ total_of passes.items) }
        ensures course { IfOk result (λ closed. CourseOf L.setup closed.total) }
        ensures err { IfErr result (λ e. (e.0 ≡ CloseFault.Missing) × (e.1 ≡ passes)) }
    {
        if passes.len() != self.actors() {
            return Err((CloseFault::Missing, passes));
        }
        let mut all = join_shares(passes);
        Ok(Closed {
            total: self.total(rt, &mut all),
        })
    }
}

/// Joins the shares of passes.
fn join_shares<L: Course>(passes: Vec<Pass<L>>) -> Share<L>
    requires { 0 < vec_len passes }
    ensures parts { result.parts ≡ vec_len passes }
    ensures amount { result.amount ≡ total_of passes.items }
{
    let mut passes = passes;
    let mut all = share_of(passes.pop().unwrap());
    while let Some(pass) = passes.pop() {
        all.merge(share_of(pass));
    }
    all
}

/// The share of a pass.
fn share_of<L: Course>(pass: Pass<L>) -> Share<L>
    ensures parts { result.parts ≡ 1 }
    ensures amount { result.amount ≡ pass.made }
{
    let Pass {
        share,
        actor: _,
        effects: _,
        front: _,
    } = pass;
    share
}
