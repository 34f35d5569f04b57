//! The page with the values of points.

use crate::dress::{SCRIPT, STYLE};
use crate::points::Points;
use crate::table::TableHead;
use run_status::{Digest, Escaped, Identity, Instant, SiteName};
use std::fmt;

/// How many rows the page has where scripts don't run; others are on further pages.
pub const FIRST_ROWS: usize = 1000;

/// The values of points as an HTML document. Where scripts run it renews itself, and has all points.
#[derive(Clone, Copy)]
pub struct PointsPage<'a> {
    /// Which gateway it is of.
    pub identity: Identity<'a>,
    pub points: &'a Points,
    /// What holds of the table as a whole.
    pub head: TableHead,
    /// The position of the first row.
    pub from: usize,
    /// The rows, at most `FIRST_ROWS`.
    pub rows: &'a str,
}

impl<'a> fmt::Display for PointsPage<'a> {
    fn fmt<W: fmt::Write>(&self, f: &mut fmt::Formatter<W>) -> fmt::Result {
        let site = SiteName(self.identity.site);
        let digest = Digest(&self.identity.digest);
        let (top, pages, rows) = (Top(*self), Pages(*self), self.rows);
        write!(
            f,
            "<!DOCTYPE html>\n<html lang=en>\n<head>\n<meta charset=utf-8>\n\
            <meta name=viewport content=\"width=device-width, initial-scale=1\">\n<link rel=icon href=\"data:,\">\n\
            <title>Points - {site}gateway</title>\n<style>{STYLE}</style>\n</head>\n<body data-settings={digest}>\n\
            <h1>{site}Points</h1>\n{top}\
            <table>\n<thead><tr><th data-key=name>Name</th><th data-key=outstation>Outstation</th>\
            <th data-key=address>Address</th><th data-key=type>Type</th><th data-key=value>Value</th>\
            <th data-key=quality>Quality</th><th data-key=changed>Changed</th><th data-key=stamp>Stamp</th>\
            <th data-key=changes class=number>Changes</th></tr></thead>\n<tbody id=rows>\n{rows}</tbody>\n</table>\n\
            {pages}<p class=screen><button id=more type=button hidden>Show more</button> \
            <button id=all type=button hidden>Show all</button></p>\n<script>{SCRIPT}</script>\n</body>\n</html>\n"
        )
    }
}

/// What stands above the table: when this is, of which settings, and, where scripts run, what is chosen.
#[derive(Clone, Copy)]
struct Top<'a>(PointsPage<'a>);

impl<'a> fmt::Display for Top<'a> {
    fn fmt<W: fmt::Write>(&self, f: &mut fmt::Formatter<W>) -> fmt::Result {
        let page = self.0;
        let TableHead { as_of, passed_over } = page.head;
        let hidden = if passed_over == 0 { " hidden" } else { "" };
        write!(
            f,
            "<p id=state>At {}.</p>\n<p class=wrong id=passed{hidden}>At least {passed_over} changes were passed over; counts \
            are at least what they say.</p>\n\
            <p>Settings {}, SHA-256 {}. <a class=screen href=\"/\">Status</a> <a class=screen href=\"points.csv\">CSV</a> \
            <a class=screen href=\"points.json\">JSON</a></p>\n\
            <form id=choice hidden><label>Search <input id=search type=search autocomplete=off></label>\
            <label>Outstation <select id=only><option value=\"\">all</option>{}</select></label>\
            <label><input id=lately type=checkbox> changed in the last minute</label>\
            <span id=count></span><button id=forget type=button>Forget ticks</button></form>\n",
            Instant(as_of),
            Escaped::html(page.identity.file),
            Digest(&page.identity.digest),
            Outstations(page.points)
        )
    }
}

/// The outstations to choose from.
#[derive(Clone, Copy)]
struct Outstations<'a>(&'a Points);

impl<'a> fmt::Display for Outstations<'a> {
    fn fmt<W: fmt::Write>(&self, f: &mut fmt::Formatter<W>) -> fmt::Result {
        for (position, name) in self.0.outstations().iter().enumerate() {
            write_outstation(f, position, Escaped::html(name.text.as_str()))?;
        }
        Ok(())
    }
}

/// Writes an outstation to choose.
fn write_outstation<W: fmt::Write>(
    f: &mut fmt::Formatter<W>,
    position: usize,
    name: Escaped<'_>,
) -> fmt::Result {
    write!(
        f,
        "<option value={position} data-name=\"{name}\">{position} {name}</option>"
    )
}

/// The ways to further rows where scripts don't run.
#[derive(Clone, Copy)]
struct Pages<'a>(PointsPage<'a>);

impl<'a> fmt::Display for Pages<'a> {
    fn fmt<W: fmt::Write>(&self, f: &mut fmt::Formatter<W>) -> fmt::Result {
        let (from, count) = (self.0.from, self.0.points.count());
        f.write_str("<p id=pages>")?;
        if from > 0 {
            write_way(f, "Those before", from.saturating_sub(FIRST_ROWS))?;
        }
        let next = from.saturating_add(FIRST_ROWS);
        if next < count {
            write_way(f, "The next ones", next)?;
        }
        f.write_str("</p>\n")
    }
}

/// Writes the way to the rows from a position on.
fn write_way<W: fmt::Write>(f: &mut fmt::Formatter<W>, words: &str, from: usize) -> fmt::Result {
    write!(f, "<a href=\"points?from={from}\">{words}</a> ")
}
