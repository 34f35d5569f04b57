//! Whether an outstation of which nothing comes is still there.

/// The milliseconds behind which an outstation of which nothing came is asked for the status of its link.
const QUIET_MS: u64 = 60_000;

/// What is due where nothing came.
#[derive(Clone, Copy)]
pub enum Look {
    /// Nothing.
    Wait,
    /// The request for the status of the link.
    Ask,
    /// To tell that it isn't answered.
    Tell,
    /// The end of the connection: it was answered before, and isn't any more.
    Lose,
}

/// What is known of a link by its silence. Behind a minute without an octet its status is asked for (REQUEST_LINK_STATUS of IEEE
/// Std 1815-2012, clause 9). An outstation that has answered this before, and doesn't in time, is lost. One that never did isn't
/// asked again.
#[derive(Clone, Copy)]
pub struct LinkCheck {
    /// How many milliseconds an answer may take.
    patience: u64,
    /// When octets came last, or the connection began, in milliseconds.
    heard: u64,
    /// When the status was asked for, where no octet has come since then.
    asked: Option<u64>,
    has_answered: bool,
    is_mute: bool,
}

impl LinkCheck {
    /// The link of a connection that begins at a moment, of which an answer may take so many milliseconds.
    pub fn new(patience: u64, moment: u64) -> LinkCheck {
        LinkCheck {
            patience,
            heard: moment,
            asked: None,
            has_answered: false,
            is_mute: false,
        }
    }

    /// Octets came at a moment.
    pub fn hear(&mut self, moment: u64) {
        self.heard = moment;
        self.asked = None;
    }

    /// The status of the link came.
    pub fn answer(&mut self) {
        self.has_answered = true;
    }

    /// What is due at a moment, where no octet came.
    pub fn look(&mut self, moment: u64) -> Look {
        match self.asked {
            Some(asked) if moment.saturating_sub(asked) < self.patience => Look::Wait,
            Some(_) if self.has_answered => Look::Lose,
            Some(_) => {
                self.asked = None;
                self.is_mute = true;
                Look::Tell
            }
            None if self.is_mute || moment.saturating_sub(self.heard) < QUIET_MS => Look::Wait,
            None => {
                self.asked = Some(moment);
                Look::Ask
            }
        }
    }
}
