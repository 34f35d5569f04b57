//! Whether all is well, and what isn't.

use crate::indications::ask_for_time;
use crate::state::{write_before, write_outstation_words};
use crate::status::{ClientStatus, OutstationStatus, Status};
use crate::time::Moment;
use cmd_text::{Escaped, write_behind};
use std::alloc::{AllocError, Global};
use std::fmt;

/// For how many milliseconds the core makes no tick at most where it lives: a second in which its lock is taken, and the time
/// from one tick to the next.
const LONGEST_TICKLESS_MS: u64 = 1100;

/// How many milliseconds a standstill has that is told in whole seconds.
const SECOND_MS: u64 = 1000;

/// Whether the core lives, which has made no tick for so many milliseconds.
pub fn is_alive(tickless_ms: u64) -> bool {
    tickless_ms <= LONGEST_TICKLESS_MS
}

/// Something that isn't well.
#[derive(Clone, Copy)]
pub enum Finding {
    /// The core makes no ticks.
    Standstill,
    /// The outstation at this position isn't all right.
    Outstation(usize),
    /// Observations were dropped in the last minute at this place for a client.
    Dropped(usize),
    /// Steps aren't taken down any more.
    RecordEnded,
    /// No client transfers data.
    NoCentre,
    /// The outstation at this position asks for the time, and isn't given it.
    TimeWanted(usize),
    /// Points of the outstation at this position were never told.
    NeverTold(usize),
}

impl Finding {
    /// Whether it is of an outstation.
    pub fn is_of_outstation(self) -> bool {
        match self {
            Finding::Outstation(_) | Finding::TimeWanted(_) | Finding::NeverTold(_) => true,
            Finding::Standstill | Finding::Dropped(_) | Finding::RecordEnded | Finding::NoCentre =>
                false,
        }
    }
}

/// What isn't well with a gateway.
#[derive(Drop)]
pub struct Verdict {
    /// What somebody has to look after at once.
    pub alarms: Vec<Finding>,
    /// What somebody has to look after some time.
    pub cautions: Vec<Finding>,
}

impl Verdict {
    /// That of a status.
    pub fn of(alloc: Global, status: &Status<'_>) -> Result<Verdict, AllocError> {
        let mut verdict = Verdict {
            alarms: Vec::new(alloc),
            cautions: Vec::new(alloc),
        };
        verdict.judge(status)?;
        Ok(verdict)
    }

    /// Judges how the gateway is.
    fn judge(&mut self, status: &Status<'_>) -> Result<(), AllocError> {
        let has_centre = has_centre(status.clients.as_slice());
        self.alarm_if(!is_alive(status.tickless_ms), Finding::Standstill)?;
        self.judge_outstations(status.outstations.as_slice())?;
        self.judge_clients(status.clients.as_slice())?;
        self.alarm_if(status.records == Some(false), Finding::RecordEnded)?;
        self.alarm_if(status.needs_centre && !has_centre, Finding::NoCentre)
    }

    /// Judges how it is with the outstations.
    fn judge_outstations(&mut self, outstations: &[OutstationStatus]) -> Result<(), AllocError> {
        for (position, outstation) in outstations.iter().enumerate() {
            self.judge_outstation(position, outstation)?;
        }
        Ok(())
    }

    /// Judges how it is with the places for clients.
    fn judge_clients(&mut self, clients: &[ClientStatus]) -> Result<(), AllocError> {
        for (place, client) in clients.iter().enumerate() {
            self.alarm_if(client.dropped_lately != 0, Finding::Dropped(place))?;
        }
        Ok(())
    }

    /// Judges how it is with the outstation at a position.
    fn judge_outstation(
        &mut self,
        position: usize,
        outstation: &OutstationStatus,
    ) -> Result<(), AllocError> {
        let is_wanted = ask_for_time(outstation.indications) && !outstation.is_given_time;
        self.alarm_if(
            !outstation.state.is_all_right(),
            Finding::Outstation(position),
        )?;
        self.caution_if(
            is_wanted && outstation.has_answered,
            Finding::TimeWanted(position),
        )?;
        self.caution_if(
            outstation.points.never_told != 0,
            Finding::NeverTold(position),
        )
    }

    /// An alarm more, where something is so.
    fn alarm_if(&mut self, is_so: bool, finding: Finding) -> Result<(), AllocError> {
        if is_so {
            self.alarms.push(finding)?;
        }
        Ok(())
    }

    /// A caution more, where something is so.
    fn caution_if(&mut self, is_so: bool, finding: Finding) -> Result<(), AllocError> {
        if is_so {
            self.cautions.push(finding)?;
        }
        Ok(())
    }

    /// Whether nothing has to be looked after at once.
    pub fn is_without_alarm(&self) -> bool {
        self.alarms.is_empty()
    }

    /// How all is, in words.
    pub fn words(&self) -> &'static str {
        if !self.alarms.is_empty() {
            "Not all is well"
        } else if !self.cautions.is_empty() {
            "Caution"
        } else {
            "All is well"
        }
    }

    /// The class by which the page shows these words.
    pub fn class(&self) -> &'static str {
        if !self.alarms.is_empty() {
            "wrong"
        } else if !self.cautions.is_empty() {
            "caution"
        } else {
            "right"
        }
    }
}

/// Whether a client transfers data.
fn has_centre(clients: &[ClientStatus]) -> bool {
    clients.iter().any(|client| client.state.transfers())
}

/// Where a line stands, which says how texts from outside are escaped.
#[derive(Clone, Copy)]
pub enum Medium {
    /// On a page.
    Html,
    /// In plain text.
    Plain,
}

impl Medium {
    /// A text from outside, as it is shown there.
    fn show(self, text: &str) -> Escaped<'_> {
        match self {
            Medium::Html => Escaped::html(text),
            Medium::Plain => Escaped::plain(text),
        }
    }
}

impl Finding {
    /// Writes its line, without the end, as it stands somewhere.
    pub fn write<W: fmt::Write>(
        self,
        f: &mut fmt::Formatter<W>,
        status: &Status<'_>,
        medium: Medium,
    ) -> fmt::Result {
        match self {
            Finding::Standstill => write_standstill(f, status.tickless_ms),
            Finding::Dropped(place) => write_dropped_at(f, place, status.clients.as_slice()),
            Finding::RecordEnded => f.write_str("the record has ended"),
            Finding::NoCentre => f.write_str("no control centre transfers data"),
            Finding::Outstation(position)
            | Finding::TimeWanted(position)
            | Finding::NeverTold(position) => match status.outstations.get(position) {
                Some(outstation) => self.write_of_outstation(f, position, outstation, medium),
                None => Ok(()),
            },
        }
    }

    /// Writes what isn't well with the outstation at a position.
    fn write_of_outstation<W: fmt::Write>(
        self,
        f: &mut fmt::Formatter<W>,
        position: usize,
        outstation: &OutstationStatus,
        medium: Medium,
    ) -> fmt::Result {
        let name = outstation.name.as_str();
        write_which(f, position, medium.show(outstation.place.as_str()))?;
        self.write_what(f, outstation)?;
        if name.is_empty() {
            return Ok(());
        }
        write_behind(f, medium.show(name))
    }

    /// Writes what isn't well with an outstation, without which one it is.
    fn write_what<W: fmt::Write>(
        self,
        f: &mut fmt::Formatter<W>,
        outstation: &OutstationStatus,
    ) -> fmt::Result {
        match self {
            Finding::TimeWanted(_) => f.write_str(
                "asks for the time, and isn't given it, since lan_time isn't set",
            ),
            Finding::NeverTold(_) => write_never_told(f, outstation),
            _ => write_state(f, outstation),
        }
    }
}

/// Writes which outstation it is, by its position and where it is reached.
fn write_which<W: fmt::Write>(
    f: &mut fmt::Formatter<W>,
    position: usize,
    place: Escaped<'_>,
) -> fmt::Result {
    write!(f, "outstation {position} {place}: ")
}

/// Writes how it is with an outstation, and since when.
fn write_state<W: fmt::Write>(
    f: &mut fmt::Formatter<W>,
    outstation: &OutstationStatus,
) -> fmt::Result {
    let since = Moment(outstation.state_since);
    write_outstation_words(f, outstation)?;
    write!(f, ", since {since}")?;
    write_before(f, outstation)
}

/// Writes for how long the core has made no tick.
fn write_standstill<W: fmt::Write>(f: &mut fmt::Formatter<W>, milliseconds: u64) -> fmt::Result {
    let seconds = milliseconds / SECOND_MS;
    write!(f, "the core has made no tick for {seconds} s")
}

/// Writes how many observations were dropped in the last minute at a place, where it is one.
fn write_dropped_at<W: fmt::Write>(
    f: &mut fmt::Formatter<W>,
    place: usize,
    clients: &[ClientStatus],
) -> fmt::Result {
    match clients.get(place) {
        Some(client) => write_dropped(f, place, client),
        None => Ok(()),
    }
}

/// Writes how many observations were dropped in the last minute at a place.
fn write_dropped<W: fmt::Write>(
    f: &mut fmt::Formatter<W>,
    place: usize,
    client: &ClientStatus,
) -> fmt::Result {
    let count = client.dropped_lately;
    write!(f, "client {place}")?;
    write_who(f, client)?;
    write!(f, ": {count} observations dropped in the last minute")
}

/// Writes who has a place for a client, or had it before.
fn write_who<W: fmt::Write>(f: &mut fmt::Formatter<W>, client: &ClientStatus) -> fmt::Result {
    match client.address {
        Some(address) if client.dropped_of_client != 0 => write!(f, " {address}"),
        _ => f.write_str(", which has left"),
    }
}

/// Writes how many points of an outstation were never told.
fn write_never_told<W: fmt::Write>(
    f: &mut fmt::Formatter<W>,
    outstation: &OutstationStatus,
) -> fmt::Result {
    let (count, all) = (outstation.points.never_told, outstation.points.all);
    write!(f, "{count} of {all} points never told")
}

/// What a monitor is told: `ok`, or the first line of what is wrong, and how many more there are.
#[derive(Clone, Copy)]
pub struct Health<'a> {
    pub status: &'a Status<'a>,
    pub verdict: &'a Verdict,
}

impl<'a> fmt::Display for Health<'a> {
    fn fmt<W: fmt::Write>(&self, f: &mut fmt::Formatter<W>) -> fmt::Result {
        let alarms = self.verdict.alarms.as_slice();
        let Some(first) = alarms.first() else {
            return f.write_str("ok\n");
        };
        first.write(f, self.status, Medium::Plain)?;
        if alarms.len() > 1 {
            write_more(f, alarms.len() - 1)?;
        }
        f.write_str("\n")
    }
}

/// Writes how many more there are.
fn write_more<W: fmt::Write>(f: &mut fmt::Formatter<W>, count: usize) -> fmt::Result {
    write!(f, ", and {count} more")
}

/// Whether the core makes its ticks, in a line.
#[derive(Clone, Copy)]
pub struct Life(pub u64);

impl fmt::Display for Life {
    fn fmt<W: fmt::Write>(&self, f: &mut fmt::Formatter<W>) -> fmt::Result {
        if is_alive(self.0) {
            return f.write_str("alive\n");
        }
        write_standstill(f, self.0)?;
        f.write_str("\n")
    }
}

/// How many outstations are all right, and how many clients transfer data.
#[derive(Clone, Copy)]
pub struct Summary {
    outstations: usize,
    all_right: usize,
    places: usize,
    clients: usize,
    transferring: usize,
}

impl Summary {
    /// That of a status.
    pub fn of(status: &Status<'_>) -> Summary {
        let mut summary = Summary {
            outstations: status.outstations.len(),
            all_right: 0,
            places: status.clients.len(),
            clients: 0,
            transferring: 0,
        };
        for outstation in &status.outstations {
            add_if(&mut summary.all_right, outstation.state.is_all_right());
        }
        for client in &status.clients {
            add_if(&mut summary.clients, client.address.is_some());
            add_if(&mut summary.transferring, client.state.transfers());
        }
        summary
    }
}

/// One more, where it is one.
fn add_if(count: &mut usize, is_one: bool) {
    *count = count.saturating_add(usize::from(is_one));
}

impl fmt::Display for Summary {
    fn fmt<W: fmt::Write>(&self, f: &mut fmt::Formatter<W>) -> fmt::Result {
        write!(
            f,
            "{} of {} outstations all right, {} of {} clients connected, {} in data transfer",
            self.all_right, self.outstations, self.clients, self.places, self.transferring
        )
    }
}
