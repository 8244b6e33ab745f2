ghost use Rattle.std.specs.Prelude.{◌≡◌, IfSome, IfNone};
ghost use Rattle.ios_interface.specs.Headings as specs;
ghost use Rattle.ios_interface.specs.Headings.{IsHeading, IsNoHeading};

use ios_lex::{Word, is_among, is_name};

/// The words of which one may stand behind the name.
const LINKS: [&str; 2] = ["point-to-point", "multipoint"];

/// Whether these may be all words behind the name.
fn ends_heading(rest: &[Word]) -> bool
    ensures { result ≡ specs.ends_heading rest.now }
{
    let Some((word, others)) = rest.split_first() else {
        return true;
    };
    others.is_empty() && is_among(word, &LINKS)
}

/// The name in the words behind `interface`, where they are a heading.
pub(crate) fn heading_name(words: &[Word]) -> Option<&Word>
    ensures found { IfSome result (λ name. IsHeading words.now name.now) }
    ensures none { IfNone result (IsNoHeading words.now) }
{
    let (name, rest) = words.split_first()?;
    if !is_name(name.bytes()) {
        return None;
    }
    if ends_heading(rest) { Some(name) } else { None }
}
