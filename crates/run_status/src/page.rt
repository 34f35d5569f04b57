//! The page for people.

use crate::rows::{write_clients, write_outstations};
use crate::status::{Identity, Status};
use crate::time::{Moment, Span};
use crate::verdict::{Finding, Medium, Summary, Verdict};
use cmd_text::Escaped;
use std::fmt;
use std::net::SocketAddr;

/// How many findings of outstations the page lists at its top at most, of alarms and of cautions; the table has all.
const MOST_LISTED: usize = 8;

/// A status, and how well all is, as an HTML document that a browser loads again every 2 seconds.
#[derive(Clone, Copy)]
pub struct Page<'a> {
    pub status: &'a Status<'a>,
    pub verdict: &'a Verdict,
}

/// How the page looks: the colours, by day and in a dark room; how the page is laid out, and the tables where there is
/// room; and how they are on a phone: a row below the other.
const STYLE: &str = "\
:root { color-scheme: light dark; --ground: #fff; --ink: #1c2024; --faint: #5b6570; --line: #d5dae0; --wrong: #b3261e; \
--caution: #8a5a00; --right: #1f6f43 }\n\
@media (prefers-color-scheme: dark) { :root { --ground: #14171a; --ink: #d8dde3; --faint: #98a2ad; --line: #2e353c; \
--wrong: #ff8a80; --caution: #f2c14e; --right: #7fd1a0 } }\n\
body { margin: 0 auto; max-width: 96rem; padding: 1rem; background: var(--ground); color: var(--ink); \
font: 1rem/1.4 system-ui, sans-serif }\n\
h1 { margin: 0 0 .6rem; font-size: 1.3rem; border-left: .5rem solid; padding-left: .6rem }\n\
h1 b { display: block; color: var(--ink); overflow-wrap: anywhere }\n\
h1 span { display: block; color: var(--ink); font-size: 1rem; font-weight: normal }\n\
h2 { margin: 1.5rem 0 .5rem; font-size: 1.1rem }\n\
p { margin: .3rem 0; color: var(--faint); overflow-wrap: anywhere }\n\
ul { margin: .4rem 0; padding-left: 1.1rem }\n\
li { overflow-wrap: anywhere }\n\
small { color: var(--faint); white-space: nowrap }\n\
.wrong { color: var(--wrong) }\n\
.caution { color: var(--caution) }\n\
.right { color: var(--right) }\n\
td.wrong, td.caution { font-weight: bold }\n\
td.wrong small, td.caution small { font-weight: normal }\n\
table { width: 100%; border-collapse: collapse; font-variant-numeric: tabular-nums }\n\
th, td { padding: .35rem .4rem; border-bottom: 1px solid var(--line); text-align: left; vertical-align: top }\n\
thead th { color: var(--faint); font-weight: normal }\n\
tbody th { min-width: 11.5rem; overflow-wrap: anywhere }\n\
i { color: var(--faint); font-style: normal; font-weight: normal }\n\
.number { text-align: right }\n\
th small, td small { display: block; font-weight: normal }\n\
.free { color: var(--faint) }\n\
@media (max-width: 50rem) {\n\
thead { display: none }\n\
table, tbody { display: block }\n\
tr { display: grid; grid-template-columns: 1fr 1fr; column-gap: .5rem; padding: .5rem 0; \
border-bottom: 1px solid var(--line) }\n\
th, td { border: 0; padding: .15rem 0 }\n\
tbody th, tr td:first-of-type { grid-column: 1 / -1 }\n\
td::before { content: attr(data-column) \": \"; color: var(--faint); font-weight: normal }\n\
small { white-space: normal }\n\
.number { text-align: left }\n\
.free .number { display: none }\n\
}\n";

/// What stands in front of the rows of outstations.
const OUTSTATIONS: &str = "\
<h2>Outstations</h2>\n<table>\n<thead><tr><th>Outstation</th><th>State</th><th>Last answer</th>\
<th>Indications</th><th>Points</th><th class=number>Events</th><th class=number>Requests</th>\
<th>Not taken</th><th>Orders</th></tr></thead>\n<tbody>\n";

/// What stands between these and the rows of clients.
const CLIENTS: &str = "\
</tbody>\n</table>\n<h2>Clients</h2>\n<table>\n<thead><tr><th>Client</th><th>State</th><th>Connected</th>\
<th class=number>Not acknowledged</th><th class=number>Queued</th><th class=number>Dropped</th>\
<th>Ended</th></tr></thead>\n<tbody>\n";

impl<'a> fmt::Display for Page<'a> {
    fn fmt<W: fmt::Write>(&self, f: &mut fmt::Formatter<W>) -> fmt::Result {
        let status = self.status;
        write_head(f, self.verdict, status.identity.site)?;
        write_top(f, status, self.verdict)?;
        write_facts(f, status)?;
        f.write_str(OUTSTATIONS)?;
        write_outstations(f, status.outstations.as_slice(), status.now)?;
        f.write_str(CLIENTS)?;
        write_clients(f, status.clients.as_slice(), status.now)?;
        f.write_str("</tbody>\n</table>\n</body>\n</html>\n")
    }
}

/// Writes the head of the page, and how its body begins.
fn write_head<W: fmt::Write>(
    f: &mut fmt::Formatter<W>,
    verdict: &Verdict,
    site: Option<&str>,
) -> fmt::Result {
    let (verdict, site) = (verdict.words(), SiteName(site));
    write!(
        f,
        "<!DOCTYPE html>\n<html lang=en>\n<head>\n<meta charset=utf-8>\n\
        <meta name=viewport content=\"width=device-width, initial-scale=1\">\n\
        <meta http-equiv=refresh content=2>\n<link rel=icon href=\"data:,\">\n\
        <title>{verdict} - {site}gateway</title>\n<style>\n{STYLE}</style>\n</head>\n<body>\n"
    )
}

/// The name of the site in front of other words, if it has one.
#[derive(Clone, Copy)]
pub struct SiteName<'a>(pub Option<&'a str>);

impl<'a> fmt::Display for SiteName<'a> {
    fn fmt<W: fmt::Write>(&self, f: &mut fmt::Formatter<W>) -> fmt::Result {
        match self.0 {
            Some(site) => write!(f, "{} - ", Escaped::html(site)),
            None => Ok(()),
        }
    }
}

/// Writes how all is, and what isn't well.
fn write_top<W: fmt::Write>(
    f: &mut fmt::Formatter<W>,
    status: &Status<'_>,
    verdict: &Verdict,
) -> fmt::Result {
    let class = verdict.class();
    write!(f, "<h1 class={class}>")?;
    write_site(f, status.identity.site)?;
    write_verdict(f, verdict.words(), Summary::of(status))?;
    write_findings(f, status, "wrong", verdict.alarms.as_slice())?;
    write_findings(f, status, "caution", verdict.cautions.as_slice())
}

/// Writes the name of the site above how all is, if it has one.
fn write_site<W: fmt::Write>(f: &mut fmt::Formatter<W>, site: Option<&str>) -> fmt::Result {
    match site {
        Some(site) => write!(f, "<b>{}</b>", Escaped::html(site)),
        None => Ok(()),
    }
}

/// Writes how all is, and of how many that holds.
fn write_verdict<W: fmt::Write>(
    f: &mut fmt::Formatter<W>,
    words: &str,
    summary: Summary,
) -> fmt::Result {
    write!(f, "{words}<span>{summary}</span></h1>\n")
}

/// Writes findings, each in a line of this class: first those of the gateway as a whole, then the first of those of outstations,
/// and how many more there are.
fn write_findings<W: fmt::Write>(
    f: &mut fmt::Formatter<W>,
    status: &Status<'_>,
    class: &str,
    findings: &[Finding],
) -> fmt::Result {
    if findings.is_empty() {
        return Ok(());
    }
    f.write_str("<ul>\n")?;
    for finding in findings {
        if !finding.is_of_outstation() {
            write_finding(f, status, class, *finding)?;
        }
    }
    write_of_outstations(f, status, class, findings)?;
    f.write_str("</ul>\n")
}

/// Writes the first findings of outstations, and how many more there are.
fn write_of_outstations<W: fmt::Write>(
    f: &mut fmt::Formatter<W>,
    status: &Status<'_>,
    class: &str,
    findings: &[Finding],
) -> fmt::Result {
    let mut count: usize = 0;
    for finding in findings {
        count = count.saturating_add(usize::from(finding.is_of_outstation()));
        if finding.is_of_outstation() && count <= MOST_LISTED {
            write_finding(f, status, class, *finding)?;
        }
    }
    match count.saturating_sub(MOST_LISTED) {
        0 => Ok(()),
        more => write_more(f, class, more),
    }
}

/// Writes a finding.
fn write_finding<W: fmt::Write>(
    f: &mut fmt::Formatter<W>,
    status: &Status<'_>,
    class: &str,
    finding: Finding,
) -> fmt::Result {
    write!(f, "<li class={class}>")?;
    finding.write(f, status, Medium::Html)?;
    f.write_str("</li>\n")
}

/// Writes how many findings of outstations more there are.
fn write_more<W: fmt::Write>(f: &mut fmt::Formatter<W>, class: &str, count: usize) -> fmt::Result {
    write!(
        f,
        "<li class={class}>and {count} more of outstations below</li>\n"
    )
}

/// Writes when this is, and which gateway.
fn write_facts<W: fmt::Write>(f: &mut fmt::Formatter<W>, status: &Status<'_>) -> fmt::Result {
    write_times(f, status)?;
    write_identity(f, status.identity)?;
    write_counts(f, status.steps, status.news, status.records)
}

/// Writes when this is, since when the gateway runs, and the way to the values of points, where they are shown.
fn write_times<W: fmt::Write>(f: &mut fmt::Formatter<W>, status: &Status<'_>) -> fmt::Result {
    let (now, started) = (Moment(status.now), Moment(status.started));
    let uptime = Span(status.uptime());
    write!(
        f,
        "<p>At {now}. The gateway runs for {uptime}, since {started}."
    )?;
    f.write_str(if status.passed_over.is_some() {
        " <a href=points>Values of points</a></p>\n"
    } else {
        "</p>\n"
    })
}

/// Writes which gateway it is.
fn write_identity<W: fmt::Write>(f: &mut fmt::Formatter<W>, identity: Identity<'_>) -> fmt::Result {
    write_settings(f, Escaped::html(identity.file), Digest(&identity.digest))?;
    write_listen(f, identity.listen)?;
    write_version(f, Escaped::html(identity.version))?;
    write_commit(f, identity.commit)?;
    f.write_str(".</p>\n")
}

/// Writes which settings it has.
fn write_settings<W: fmt::Write>(
    f: &mut fmt::Formatter<W>,
    file: Escaped<'_>,
    digest: Digest<'_>,
) -> fmt::Result {
    write!(f, "<p>Settings {file}, SHA-256 {digest}.")
}

/// The SHA-256 of a file, in hexadecimal.
#[derive(Clone, Copy)]
pub struct Digest<'a>(pub &'a [u8; 32]);

impl<'a> fmt::Display for Digest<'a> {
    fn fmt<W: fmt::Write>(&self, f: &mut fmt::Formatter<W>) -> fmt::Result {
        for octet in self.0 {
            write_octet(f, *octet)?;
        }
        Ok(())
    }
}

/// Writes an octet in hexadecimal.
fn write_octet<W: fmt::Write>(f: &mut fmt::Formatter<W>, octet: u8) -> fmt::Result {
    write!(f, "{octet:02x}")
}

/// Writes where clients connect, if that is known.
fn write_listen<W: fmt::Write>(
    f: &mut fmt::Formatter<W>,
    listen: Option<SocketAddr>,
) -> fmt::Result {
    match listen {
        Some(address) => write!(f, " Listens on {address}."),
        None => Ok(()),
    }
}

/// Writes the version of the gateway.
fn write_version<W: fmt::Write>(f: &mut fmt::Formatter<W>, version: Escaped<'_>) -> fmt::Result {
    write!(f, " Version {version}")
}

/// Writes the commit that the gateway was built from, if it is known.
fn write_commit<W: fmt::Write>(f: &mut fmt::Formatter<W>, commit: Option<&str>) -> fmt::Result {
    match commit {
        Some(commit) => write!(f, " (commit {})", Escaped::html(commit)),
        None => Ok(()),
    }
}

/// Writes how many steps and observations there were, and whether steps are taken down, if that is asked for.
fn write_counts<W: fmt::Write>(
    f: &mut fmt::Formatter<W>,
    steps: u64,
    news: u64,
    records: Option<bool>,
) -> fmt::Result {
    write!(
        f,
        "<p>{steps} steps of the core, {news} spontaneous observations"
    )?;
    f.write_str(match records {
        Some(true) => "; they are recorded.</p>\n",
        Some(false) => "; the record has ended.</p>\n",
        None => ".</p>\n",
    })
}
