//! What `gateway check` writes of settings.

use cmd_profile::{Names, Origin, Settings, write_html_profile, write_listing, write_profile};
use std::alloc::Global;
use std::io::{self, Write};

/// What is written of settings that are accepted.
#[derive(Clone, Copy)]
pub enum CheckReport<'a> {
    /// A line for each point and each control, and how many there are.
    Listing,
    /// The sheet that is signed: the interoperability list of the station (IEC 60870-5-104, clause 9), its outstations and its
    /// signals.
    Profile(Origin<'a>),
    /// The same as an HTML document.
    HtmlProfile(Origin<'a>),
}

impl<'a> CheckReport<'a> {
    /// Writes it, with names behind the lines of what they are of.
    pub fn write<W: Write>(
        self,
        alloc: Global,
        settings: &Settings,
        names: &Names,
        writer: &mut W,
    ) -> io::Result<()> {
        match self {
            CheckReport::Listing => write_listing(settings, names, writer),
            CheckReport::Profile(origin) => write_profile(alloc, origin, settings, names, writer),
            CheckReport::HtmlProfile(origin) => {
                write_html_profile(alloc, origin, settings, names, writer)
            }
        }
    }
}
