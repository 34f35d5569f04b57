//! What is known of an outstation's points, outside the core's lock.

use gw_map::Settings;
use gw_model::{Memory, PointKey, Report};
use run_status::PointStatus;
use std::alloc::Global;
use std::collections::HashMap;

/// COMM_LOST among the flags of a report (IEEE Std 1815, 11.6.1): the value isn't topical.
const COMM_LOST: u8 = 1 << 2;

/// How the last value of a point is.
#[derive(Clone, Copy)]
enum Shown {
    /// The outstation never told one.
    Never,
    /// It isn't topical.
    NotTopical,
    /// It was topical before the outstation was lost for the time of this number.
    Topical(u64),
}

impl Shown {
    /// Whether it is topical where the outstation was lost so often.
    fn is_topical(self, losses: u64) -> bool {
        match self {
            Shown::Topical(told) => told == losses,
            Shown::Never | Shown::NotTopical => false,
        }
    }
}

/// What a report says of a point.
#[derive(Clone, Copy)]
struct Telling {
    key: PointKey,
    is_topical: bool,
}

impl Telling {
    fn of(report: &Report) -> Telling {
        Telling {
            key: report.key,
            is_topical: report.flags & COMM_LOST == 0,
        }
    }
}

/// How the last value of each point is.
#[derive(Drop)]
struct LastValues {
    shown: HashMap<PointKey, Shown>,
    never_told: usize,
    topical: usize,
    /// How often the outstation was lost.
    losses: u64,
}

impl LastValues {
    /// Whether it is new what is said of a point.
    fn is_news(&self, telling: Telling) -> bool {
        match self.shown.get(&telling.key) {
            Some(Shown::Never) => true,
            Some(shown) => shown.is_topical(self.losses) != telling.is_topical,
            None => false,
        }
    }

    /// A point is told.
    fn show(&mut self, telling: Telling) {
        let losses = self.losses;
        let Some(shown) = self.shown.get_mut(&telling.key) else {
            return;
        };
        let before = *shown;
        *shown = if telling.is_topical {
            Shown::Topical(losses)
        } else {
            Shown::NotTopical
        };
        if let Shown::Never = before {
            self.never_told = self.never_told.saturating_sub(1);
        }
        let was = usize::from(before.is_topical(losses));
        let is = usize::from(telling.is_topical);
        self.topical = self.topical.saturating_add(is).saturating_sub(was);
    }
}

/// Which points of an outstation were told, and of which the last value is topical.
#[derive(Drop)]
pub struct Points {
    values: LastValues,
    /// What a fragment says of which the step isn't made yet.
    pending: Vec<Telling>,
    /// The number of the step by which the outstation was lost last.
    lost_by: u64,
}

impl Points {
    /// Those of settings that belong to the outstation at a position, of which none was told.
    pub fn of(alloc: Global, settings: &Settings, outstation: usize) -> Result<Points, Memory> {
        let mut shown = HashMap::new(alloc);
        for row in settings.rows() {
            if usize::from(row.key.outstation) == outstation {
                shown.insert(row.key, Shown::Never)?;
            }
        }
        let values = LastValues {
            never_told: shown.len(),
            shown,
            topical: 0,
            losses: 0,
        };
        Ok(Points {
            values,
            pending: Vec::new(alloc),
            lost_by: 0,
        })
    }

    /// A fragment has these reports, and is about to be taken or refused. What isn't new, with nothing new before it, needn't
    /// be kept. Without memory the rest isn't noted.
    pub fn note(&mut self, reports: &[Report]) {
        self.pending.clear();
        for report in reports {
            let telling = Telling::of(report);
            if !self.pending.is_empty() || self.values.is_news(telling) {
                let _ = self.pending.push(telling);
            }
        }
    }

    /// The fragment was taken, by the step of this number. If a later one by which the outstation was lost was told before, none
    /// of its values is topical.
    pub fn take(&mut self, step: u64) {
        let is_lost = step < self.lost_by;
        for telling in &self.pending {
            self.values.show(Telling {
                is_topical: telling.is_topical && !is_lost,
                ..*telling
            });
        }
        self.pending.clear();
    }

    /// The outstation is lost, by the step of this number: none of its values is topical.
    pub fn lose(&mut self, step: u64) {
        self.lost_by = self.lost_by.max(step);
        self.values.losses = self.values.losses.saturating_add(1);
        self.values.topical = 0;
    }

    /// How many there are. Those that were never told count where all were asked for.
    pub fn status(&self, were_asked_for: bool) -> PointStatus {
        let LastValues {
            shown,
            never_told,
            topical,
            ..
        } = &self.values;
        let never_told = if were_asked_for { *never_told } else { 0 };
        PointStatus {
            all: shown.len() as u64,
            not_topical: shown.len().saturating_sub(*topical) as u64,
            never_told: never_told as u64,
        }
    }
}
