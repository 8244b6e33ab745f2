ghost use Rattle.std.specs.Prelude.{◌≡◌, ◌<◌, Some, IfSome, length, slice_get};
ghost use Rattle.std.specs.Option.{option_and_then, option_map};
ghost use Rattle.session.specs.Kept as kept;
ghost use Rattle.session.specs.Kept.{IsPlace};
ghost use Rattle.session.specs.Library as specs;
ghost use Rattle.session.specs.Library.{Loaded as Meaning, defined_lists, list_among};

use crate::library::{Loaded, place_among};
use ios_acl::Acl;
use sorted_logic::Text;

/// Where a list stands: the router's place among those that are loaded, and the list's among the router's.
#[derive(Clone, Copy, Debug)]
pub struct Place {
    pub router: usize,
    pub list: usize,
}

/// Where the defined list of this name stands, of the router of this name.
pub fn place_of(library: &[Loaded], router: &str, list: &str) -> Option<Place>
    ensures found { option_and_then (kept.list_at library.now) result
        ≡ specs.list_of library.now router.now list.now }
    ensures place { IfSome result (IsPlace library.now) }
{
    for place in 0..library.len() {
        if router.as_bytes() == library[place].name().bytes() {
            return place_in(library, place, list);
        }
    }
    None
}

/// Where the defined list of this name stands, of the router at this place.
fn place_in(library: &[Loaded], router: usize, list: &str) -> Option<Place>
    requires { router < length library.now }
    ensures found { (loaded : Meaning) → slice_get library.now router ≡ Some loaded
        → option_and_then (kept.list_at library.now) result
        ≡ list_among (defined_lists loaded.router) list.now }
    ensures place { IfSome result (IsPlace library.now) }
{
    match place_among(library[router].lists(), list) {
        Some(list) => Some(Place { router, list }),
        None => None,
    }
}

/// The list at a place.
pub fn list_at(library: &[Loaded], place: Place) -> &Acl
    requires { IsPlace library.now place }
    ensures { Some result.now ≡ kept.list_at library.now place }
{
    &library[place.router].lists()[place.list]
}

/// The defined list under the path ROUTER.acl.LIST.
pub fn list_at_path<'a>(library: &'a [Loaded], parts: &[Text]) -> Option<&'a Acl>
    ensures { option_map (λ list. list.now) result ≡ specs.list_at_path library.now parts.now }
{
    match parts {
        [router, part, name] => {
            if part.as_str() == "acl" {
                list_of(library, router.as_str(), name.as_str())
            } else {
                None
            }
        }
        _ => None,
    }
}

/// The defined list of this name, of the router of this name.
fn list_of<'a>(library: &'a [Loaded], router: &str, list: &str) -> Option<&'a Acl>
    ensures { option_map (λ list. list.now) result ≡ specs.list_of library.now router.now list.now }
{
    match place_of(library, router, list) {
        Some(place) => Some(list_at(library, place)),
        None => None,
    }
}
