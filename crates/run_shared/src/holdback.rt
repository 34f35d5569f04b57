//! How outstations are held back.

/// The milliseconds behind which it is looked again whether clients have room.
const NAP_MS: u64 = 5;

/// The most milliseconds for which an outstation is held back while an order for it has no outcome.
const MOST_WITH_ORDER_MS: u64 = 250;

/// What a fragment brings that wasn't taken yet.
#[derive(Clone, Copy)]
pub struct Load {
    /// The outstation that sent it.
    pub outstation: u8,
    /// How many observations it tells of.
    pub size: u64,
    /// For how many milliseconds it has waited.
    pub waited: u64,
    /// For how many milliseconds its outstation is held back at most.
    pub patience: u64,
}

/// How an outstation is held back, for clients that have no room for what it brings: it isn't asked, and what it sends isn't
/// taken, for so long together between two fragments. Moments are in milliseconds.
#[derive(Clone, Copy)]
pub struct Holdback {
    /// For how many observations room is kept: those of a fragment that is about to be taken.
    kept: u64,
    /// For how many it waits.
    wanted: u64,
    /// When it began to wait behind the last fragment.
    began: Option<u64>,
    /// How many observations that had.
    brought: u64,
    /// For how many milliseconds it is held back at most.
    patience: u64,
    /// For how many milliseconds it wasn't asked since that fragment, without what has passed since a moment at which it still
    /// wasn't.
    unasked: u64,
    since: Option<u64>,
}

impl Holdback {
    /// Of an outstation that sent nothing.
    pub fn new() -> Holdback {
        Holdback {
            kept: 0,
            wanted: 0,
            began: None,
            brought: 0,
            patience: 0,
            unasked: 0,
            since: None,
        }
    }

    /// How many observations it is reckoned to bring next: as many as last.
    pub fn last_count(&self) -> u64 {
        self.brought
    }

    /// When it began to wait, where it does or is to begin at a moment.
    pub fn began(&self, moment: u64) -> u64 {
        self.began.unwrap_or(moment)
    }

    /// For how many observations another has to leave room, which brings so many and began to wait at a moment: those for which
    /// room is kept, and those for which this one has waited for longer, unless they are more.
    pub fn precedes(&self, size: u64, began: u64) -> u64 {
        let wanted = match self.began {
            Some(earlier) if earlier < began && self.wanted <= size => self.wanted,
            _ => 0,
        };
        self.kept.saturating_add(wanted)
    }

    /// A fragment of so many observations was taken.
    pub fn take(&mut self, size: u64) {
        *self = Holdback {
            brought: size,
            patience: self.patience,
            ..Holdback::new()
        };
    }

    /// A fragment wasn't taken.
    pub fn let_go(&mut self) {
        self.kept = 0;
        self.wanted = 0;
    }

    /// For how many milliseconds it wasn't asked up to a moment, since the last fragment.
    fn unasked_at(&self, moment: u64) -> u64 {
        let since = self.since.unwrap_or(moment);
        self.unasked.saturating_add(moment.saturating_sub(since))
    }

    /// It waits at a moment for so many observations to have room.
    fn wait(&mut self, size: u64, moment: u64) {
        self.wanted = size;
        self.began = Some(self.began(moment));
    }

    /// Whether a fragment is to wait at a moment, for which clients lack room or don't, and whose outstation has an order
    /// without an outcome or hasn't. Where none lacks room it is kept.
    pub fn waits(&mut self, load: Load, moment: u64, lacks_room: bool, has_order: bool) -> bool {
        self.patience = load.patience;
        self.let_go();
        if !lacks_room {
            self.kept = load.size;
            return false;
        }
        let most = if has_order {
            load.patience.min(MOST_WITH_ORDER_MS)
        } else {
            load.patience
        };
        if load.waited.saturating_add(self.unasked_at(moment)) < most {
            self.wait(load.size, moment);
            true
        } else {
            false
        }
    }

    /// For how many milliseconds the outstation isn't to be asked at a moment, where clients lack room for as much as it
    /// brought last, or don't; then it is to be looked again.
    pub fn rest_at(&mut self, moment: u64, lacks_room: bool) -> u64 {
        let unasked = self.unasked_at(moment);
        self.unasked = unasked;
        if lacks_room && unasked < self.patience {
            self.since = Some(moment);
            self.wait(self.brought, moment);
            NAP_MS
        } else {
            self.since = None;
            self.wanted = 0;
            0
        }
    }
}
