ghost use Rattle.std.specs.Prelude.{◌≡◌, ◌<◌, ◌&&◌, length, slice_get, IfSome};
ghost use Rattle.std.specs.List.{filter};
ghost use Rattle.std.specs.Option.{option_and_then};
ghost use Rattle.std.specs.Str.{bytes_eq};
ghost use Rattle.session.specs.Library as specs;
ghost use Rattle.session.specs.Library.{is_defined, list_among};

use ios_acl::Acl;
use ios_config::Router;
use ios_lex::Word;
use std::marker::Model;

/// A router that a script has loaded, under its name.
#[derive(Drop)]
pub struct Loaded {
    name: Word,
    router: Router,
}

impl Model for Loaded {
    ghost use Rattle.session.specs.Library.{Loaded as Meaning};

    ghost Value = { Meaning };

    ghost view = { λ l. record { name = l.name; router = l.router } };
}

impl Loaded {
    pub fn new(name: Word, router: Router) -> Loaded
        ensures { result ≡ record { name = name; router = router } }
    {
        Loaded { name, router }
    }

    pub fn name(&self) -> &Word
        ensures { result.now ≡ self.now.name }
    {
        &self.name
    }

    pub fn lists(&self) -> &[Acl]
        ensures { result.now ≡ self.now.router.lists }
    {
        self.router.lists.as_slice()
    }
}

/// How many of the router's lists are defined.
pub fn defined_count(lists: &[Acl]) -> u64
    ensures { result ≡ length (filter is_defined lists.now) }
{
    let mut count: u64 = 0;
    for list in lists {
        if list.is_defined() {
            count += 1;
        }
    }
    count
}

/// Whether the list is defined, and of this name.
fn is_defined_as(list: &Acl, name: &str) -> bool
    ensures { result ≡ (is_defined list.now && bytes_eq name.now list.now.name) }
{
    list.is_defined() && name.as_bytes() == list.name().bytes()
}

/// The place of the defined list of this name.
pub fn place_among(lists: &[Acl], name: &str) -> Option<usize>
    ensures found { option_and_then (slice_get lists.now) result
        ≡ list_among (filter is_defined lists.now) name.now }
    ensures within { IfSome result (λ place. place < length lists.now) }
{
    for place in 0..lists.len() {
        if is_defined_as(&lists[place], name) {
            return Some(place);
        }
    }
    None
}

/// Whether a router of this name is loaded.
pub fn is_router(library: &[Loaded], name: &str) -> bool
    ensures { result ≡ specs.is_router library.now name.now }
{
    for loaded in library {
        if name.as_bytes() == loaded.name().bytes() {
            return true;
        }
    }
    false
}
