// The exported functions of the monthly report, for C and Rust, and nothing else.
ghost use Rattle.std.specs.Prelude.{◌≡◌};
ghost use Rattle.report.specs.Totals.{add_section, joined};

use report::{Reported, Totals};

// One section more: the new totals, or 34 at its position, which is the number of sections before it, and the totals as they were.
#[unsafe(no_mangle)]
pub extern "C" fn treskibben_report_add(section: &[u8], totals: Totals) -> Reported
    ensures { result ≡ add_section section.now totals }
{
    report_totals::add(section, totals)
}

// The report of all sections of two reports, or 34 at 0 and the totals of the first.
#[unsafe(no_mangle)]
pub extern "C" fn treskibben_report_join(a: Totals, b: Totals) -> Reported
    ensures { result ≡ joined a b }
{
    report_sums::join(a, b)
}
