//! A row of the page.

use crate::shown::ShownPoint;
use crate::words::InstantIfAny;
use run_status::Escaped;
use std::fmt;

/// A point with its value as a row of a table.
#[derive(Clone, Copy)]
pub(crate) struct HtmlRow<'a>(pub(crate) ShownPoint<'a>);

impl<'a> fmt::Display for HtmlRow<'a> {
    fn fmt<W: fmt::Write>(&self, f: &mut fmt::Formatter<W>) -> fmt::Result {
        let shown = &self.0;
        let (point, observation) = (shown.point, &shown.observation);
        write!(
            f,
            "<tr><th scope=row>{}</th><td data-column=Outstation>{} {}</td><td class=fixed data-column=Address>{} {}</td>\
            <td data-column=Type>{}</td><td class=value data-column=Value>{}</td>\
            <td class=quality data-column=Quality>{}</td><td class=moment data-column=Changed>{}</td>\
            <td class=moment data-column=Stamp>{}{}</td><td class=number data-column=Changes>{}</td></tr>\n",
            Escaped::html(point.name.text.as_str()),
            point.outstation,
            Escaped::html(shown.outstation_name()),
            point.object.common_address,
            point.object.address,
            observation.type_words,
            observation.value,
            observation.quality,
            InstantIfAny(shown.changed),
            InstantIfAny(observation.stamp),
            if observation.is_doubtful { " ?" } else { "" },
            shown.changes
        )
    }
}
