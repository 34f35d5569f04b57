//! The APDU of an answer.
ghost use Rattle.std.specs.Prelude.{◌≡◌, false, MatchOption};
ghost use Rattle.gw_steps.specs.Answers.{is_apdu};

use crate::step::{Reply, StepFault};
use iec_apci::ApduBuf;

/// The APDU of an answer, if it is one.
pub fn apdu_in(answer: Result<Reply, StepFault>) -> Option<ApduBuf>
    ensures { MatchOption result (is_apdu answer ≡ false) (λ apdu. answer ≡ Ok (Reply.Apdu apdu)) }
{
    match answer {
        Ok(Reply::Apdu(apdu)) => Some(apdu),
        Ok(
            Reply::Done
            | Reply::Verdict(_)
            | Reply::Request(_)
            | Reply::Taken
            | Reply::Closed(_)
            | Reply::Nothing
            | Reply::Ticked { .. },
        )
        | Err(_) => None,
    }
}
