//! The values of points, which a thread keeps up to date and others ask for.

use gw_model::{Memory, Observation};
use run_values::{Choice, Listing, PointValue, Points, TableHead, ValueTable};
use std::alloc::{AllocError, Global};
use std::sync::atomic::{AtomicU64, Ordering};
use std::sync::{Mutex, Wait};

/// How many requests for values are answered at a time: others of the threads that serve the status are left for the rest of it.
const MOST_ASKING: u64 = 2;

/// How many values are copied under one hold of the lock.
const PIECE: usize = 256;

/// How many values, in pieces, a text has at most.
const MOST_PIECES: usize = 1024;

/// The values of points.
#[derive(Drop)]
pub struct Values<'a> {
    points: &'a Points,
    table: Mutex<ValueTable>,
    /// How many requests are answered now.
    asking: AtomicU64,
}

/// Which rows of a text are written.
#[derive(Clone, Copy)]
pub(crate) struct Range {
    /// The position of the first.
    pub(crate) from: usize,
    /// How many at most.
    pub(crate) most: usize,
}

impl<'a> Values<'a> {
    /// Those of points, of which none is known.
    pub fn new(alloc: Global, points: &'a Points) -> Result<Values<'a>, AllocError> {
        Ok(Values {
            points,
            table: Mutex::new(ValueTable::new(alloc, points.count())?),
            asking: AtomicU64::new(0),
        })
    }

    /// The points.
    pub fn points(&self) -> &'a Points {
        self.points
    }

    /// What holds of all of them.
    pub fn head<R: Wait>(&self, rt: &R) -> TableHead {
        self.table.lock(rt).head()
    }

    /// The gateway is looked at now.
    pub(crate) fn look<R: Wait>(&self, rt: &R, wall: u64) {
        self.table.lock(rt).look(wall);
    }

    /// So many changes were passed over.
    pub(crate) fn pass_over<R: Wait>(&self, rt: &R, count: u64) {
        self.table.lock(rt).pass_over(count);
    }

    /// These are news.
    pub(crate) fn take<R: Wait>(&self, rt: &R, news: &[Observation]) {
        let mut table = self.table.lock(rt);
        for observation in news {
            if let Some(position) = self
                .points
                .position(observation.common, observation.address)
            {
                table.take(position, *observation);
            }
        }
    }

    /// The points from a position on are shown so.
    pub(crate) fn show<R: Wait>(&self, rt: &R, from: usize, shown: &[Observation]) {
        // There is room for as many points as there are.
        let _ = self.table.lock(rt).show(from, shown);
    }

    /// Whether one more request may be answered now. It has to be ended where it may.
    pub(crate) fn begin_asking(&self) -> bool {
        if self.asking.fetch_add(1, Ordering::SeqCst) < MOST_ASKING {
            return true;
        }
        self.end_asking();
        false
    }

    /// A request was answered.
    pub(crate) fn end_asking(&self) {
        self.asking.fetch_sub(1, Ordering::SeqCst);
    }

    /// The values that are chosen of some rows, as a text, of a gateway that started then. They are copied piece by piece, so that
    /// nobody waits for the text.
    pub(crate) fn text<R: Wait>(
        &self,
        alloc: Global,
        rt: &R,
        choice: Choice,
        range: Range,
        started: u64,
    ) -> Result<String, Memory> {
        let rows = self.points.count().min(range.most);
        let rows = if choice.since.is_some() { PIECE } else { rows };
        let head = self.head(rt);
        let mut listing = Listing::new(alloc, self.points, choice, head, started, rows)?;
        self.add_rows(rt, &mut listing, range)?;
        Ok(listing.end()?)
    }

    /// Adds some rows to a text.
    fn add_rows<R: Wait>(
        &self,
        rt: &R,
        listing: &mut Listing<'_>,
        range: Range,
    ) -> Result<(), AllocError> {
        let mut room = [PointValue::NONE; PIECE];
        let (mut from, mut left) = (range.from, range.most);
        for _ in 0..self.points.count() / PIECE + 1 {
            let wanted = left.min(PIECE);
            let count = self.copy(rt, from, &mut room[..wanted]);
            if count == 0 {
                break;
            }
            listing.add(from, &room[..count.min(PIECE)])?;
            from = from.saturating_add(count);
            left = left.saturating_sub(count);
        }
        Ok(())
    }

    /// Copies values from a position on.
    fn copy<R: Wait>(&self, rt: &R, from: usize, room: &mut [PointValue]) -> usize {
        self.table.lock(rt).copy(from, room)
    }
}
