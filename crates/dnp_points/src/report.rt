//! What an object part reports.
ghost use Rattle.std.specs.Prelude.{◌≡◌, ◌≢◌, ◌++◌, [], List, Ok, IfOk, OnErr};
ghost use Rattle.gw_model.specs.declared.point.Report.{Report as Told};
ghost use Rattle.dnp_objects.specs.Headers.{headers_of};
ghost use Rattle.dnp_points.specs.Meaning.{Means, reports_of};

use crate::group::push_reports;
use crate::objects::Objects;
use crate::time::common_after;
use dnp_objects::Header;
use gw_model::{Memory, Report, Stamp};
use std::alloc::Global;

/// What the objects of a part with these headers report, each as one of the outstation's points.
fn all_reports(
    alloc: Global,
    outstation: u8,
    headers: &[Header],
    part: &[u8],
) -> Result<Vec<Report>, Memory>
    requires { headers_of part.now ≡ Ok headers.now }
    ensures exact { IfOk result (λ v. v.items ≡ reports_of outstation part.now headers.now) }
    ensures memory { OnErr result (reports_of outstation part.now headers.now ≢ []) }
{
    let mut found = Vec::new(alloc);
    let mut common = Stamp::Untimed;
    for header in headers {
        let objects = Objects {
            header,
            part,
            outstation,
            common,
        };
        push_reports(&objects, &mut found)?;
        common = common_after(common, header, part);
    }
    Ok(found)
}

/// What an object part reports of an outstation's points, with the headers that `headers` gave for it.
pub fn reports(
    alloc: Global,
    outstation: u8,
    headers: &[Header],
    part: &[u8],
) -> Result<Vec<Report>, Memory>
    requires { headers_of part.now ≡ Ok headers.now }
    // What is read, the part means.
    ensures found { IfOk result (λ v. Means outstation part.now v.items) }
    // What the part means is read, unless memory runs out.
    ensures only { (rs : List Told) → Means outstation part.now rs → IfOk result (λ v. v.items ≡ rs) }
    ensures exact { IfOk result (λ v. v.items ≡ reports_of outstation part.now headers.now) }
    // Memory runs out only where something is reported.
    ensures memory { OnErr result (reports_of outstation part.now headers.now ≢ []) }
{
    all_reports(alloc, outstation, headers, part)
}
