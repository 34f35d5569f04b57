//! Families of figures in Prometheus' text format.

use std::fmt;

/// How the figures of a family go.
#[derive(Clone, Copy)]
pub enum Kind {
    /// Up and down.
    Gauge,
    /// Up alone while the program runs.
    Counter,
}

impl Kind {
    /// Its word in the text format.
    fn word(self) -> &'static str {
        match self {
            Kind::Gauge => "gauge",
            Kind::Counter => "counter",
        }
    }
}

/// What a family of figures is called, and what it tells. It is shown as the lines above its figures.
#[derive(Clone, Copy)]
pub struct Family {
    pub kind: Kind,
    pub name: &'static str,
    pub help: &'static str,
}

impl fmt::Display for Family {
    fn fmt<W: fmt::Write>(&self, f: &mut fmt::Formatter<W>) -> fmt::Result {
        let Family { kind, name, help } = *self;
        let kind = kind.word();
        write!(f, "# HELP {name} {help}\n# TYPE {name} {kind}\n")
    }
}

/// A figure.
#[derive(Clone, Copy)]
pub enum Figure {
    Count(u64),
    /// Milliseconds, told in seconds.
    Time(u64),
}

impl Figure {
    /// 1 for yes and 0 for no.
    pub fn yes_or_no(yes: bool) -> Figure {
        Figure::Count(if yes { 1 } else { 0 })
    }
}

impl fmt::Display for Figure {
    fn fmt<W: fmt::Write>(&self, f: &mut fmt::Formatter<W>) -> fmt::Result {
        match *self {
            Figure::Count(count) => fmt::Display::fmt(&count, f),
            Figure::Time(time) => write_seconds(f, time),
        }
    }
}

/// Writes milliseconds as seconds.
fn write_seconds<W: fmt::Write>(f: &mut fmt::Formatter<W>, time: u64) -> fmt::Result {
    write!(f, "{}.{:03}", time / 1000, time % 1000)
}
