// Many notices in one call, for whoever batches them.
#![tactic(auto)]

ghost use Rattle.std.specs.Prelude.{◌≡◌};
ghost use Rattle.store.specs.Layout.{Fitting};
ghost use Rattle.notices.specs.Notices.{noticed_all, report_all, notices_call};

use answer::{Answer, Refusal};
use cache::Report;
use store::Geometry;

// A notice at each address, in a store whose header was checked.
fn notices_in(store: &mut [u8], g: Geometry, addresses: &[u64]) -> Report
    requires { Fitting g store.old }
    ensures { (result ≡ report_all g store.old addresses.now) × (store.new ≡ noticed_all g store.old addresses.now) }
{
    let mut report = Report::nothing();
    for address in addresses {
        report = cache::sum(report, cache::notice_in(store, g, *address));
    }
    report
}

// A notice at each address of the list, one after the other. As with one, they come after the writes and before the next lookup.
pub fn notices(store: &mut [u8], addresses: &[u64]) -> Answer<Report>
    ensures { (result, store.new) ≡ notices_call store.old addresses.now }
{
    let g = store::open(store).ok_or(Refusal::NoStore)?;
    Ok(notices_in(store, g, addresses))
}
