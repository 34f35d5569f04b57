//! What becomes of a fragment.
use gw_model::Ended;

/// Why a fragment isn't taken; the first of these in this order.
#[derive(Clone, Copy)]
pub enum Ignored {
    /// A solicited response, and no request awaits one.
    NoRequest,
    /// Its sequence number isn't that of the next fragment of the answer.
    WrongSequence,
    /// FIR isn't set in the first fragment of the answer, or is set in a later one.
    WrongFirst,
}

/// What became of a fragment. A confirmation is to be sent where there is one.
#[derive(Clone, Copy)]
pub enum Verdict {
    /// It was taken; whether the answer that it is of ended with it, and the order that ended with that.
    Accepted {
        confirm: Option<[u8; 2]>,
        end: bool,
        control: Option<Ended>,
    },
    /// It is the last unsolicited response again, and was not taken again.
    Repeated {
        confirm: Option<[u8; 2]>,
    },
    /// It was not taken: no news, and no confirmation.
    Ignored(Ignored),
}
