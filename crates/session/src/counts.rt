ghost use Rattle.std.specs.Prelude.{◌≡◌};
ghost use Rattle.session.specs.Text.{counts_of, translation_count};

use crate::library::defined_count;
use ios_config::Router;
use ios_nat::NatTable;

/// What LOAD IOS tells of a router.
#[derive(Clone, Copy, Debug)]
pub struct Counts {
    pub interfaces: u64,
    /// The lists that have an entry.
    pub lists: u64,
    /// The entries of address translation, static and dynamic.
    pub translations: u64,
    /// The static routes, active or not.
    pub routes: u64,
    /// The lines that were ignored.
    pub ignored: u64,
}

pub(crate) fn counts_of(router: &Router) -> Counts
    ensures { result ≡ counts_of router.now }
{
    Counts {
        interfaces: router.interfaces.len() as u64,
        lists: defined_count(router.lists.as_slice()),
        translations: translation_count(&router.nat),
        routes: router.static_routes,
        ignored: router.ignored,
    }
}

fn translation_count(table: &NatTable) -> u64
    ensures { result ≡ translation_count table.now }
{
    let fixed = table.port_entries().len() + table.address_entries().len();
    (fixed + table.dynamic().len()) as u64
}
