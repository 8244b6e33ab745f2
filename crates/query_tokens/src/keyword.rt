ghost use Rattle.std.specs.Prelude.{◌≡◌, All, IfSome, IfNone};
ghost use Rattle.query_tokens.specs.declared.keyword.Keyword.{Keyword as AnyKeyword};
ghost use Rattle.query_tokens.specs.Keywords as specs;
ghost use Rattle.query_tokens.specs.Keywords.{letters, IsNoKeyword};

/// A word that is no name in a script. It is written in capitals, as it stands here.
#[derive(Clone, Copy, Debug, PartialEq, Eq)]
pub enum Keyword {
    Load,
    Vocab,
    Policy,
    Ios,
    Iptables,
    As,
    Explore,
    Under,
    Include,
    Is,
    Possible,
    Show,
    One,
    First,
    All,
    Full,
    Up,
    Realized,
    Unrealized,
    Bounds,
    Proof,
    Compare,
    Decide,
    Generate,
    Link,
    Path,
    Within,
    Audit,
    Core,
    Where,
    And,
    Or,
    Not,
    Implies,
    Iff,
    Forall,
    Exists,
    In,
    To,
    True,
    False,
}

const KEYWORDS: [Keyword; 41] = [
    Keyword::Load,
    Keyword::Vocab,
    Keyword::Policy,
    Keyword::Ios,
    Keyword::Iptables,
    Keyword::As,
    Keyword::Explore,
    Keyword::Under,
    Keyword::Include,
    Keyword::Is,
    Keyword::Possible,
    Keyword::Show,
    Keyword::One,
    Keyword::First,
    Keyword::All,
    Keyword::Full,
    Keyword::Up,
    Keyword::Realized,
    Keyword::Unrealized,
    Keyword::Bounds,
    Keyword::Proof,
    Keyword::Compare,
    Keyword::Decide,
    Keyword::Generate,
    Keyword::Link,
    Keyword::Path,
    Keyword::Within,
    Keyword::Audit,
    Keyword::Core,
    Keyword::Where,
    Keyword::And,
    Keyword::Or,
    Keyword::Not,
    Keyword::Implies,
    Keyword::Iff,
    Keyword::Forall,
    Keyword::Exists,
    Keyword::In,
    Keyword::To,
    Keyword::True,
    Keyword::False,
];

/// How the keyword is written.
pub fn letters(keyword: Keyword) -> &'static [u8]
    ensures { result.now ≡ letters keyword }
{
    match keyword {
        Keyword::Load => b"LOAD",
        Keyword::Vocab => b"VOCAB",
        Keyword::Policy => b"POLICY",
        Keyword::Ios => b"IOS",
        Keyword::Iptables => b"IPTABLES",
        Keyword::As => b"AS",
        Keyword::Explore => b"EXPLORE",
        Keyword::Under => b"UNDER",
        Keyword::Include => b"INCLUDE",
        Keyword::Is => b"IS",
        Keyword::Possible => b"POSSIBLE",
        Keyword::Show => b"SHOW",
        Keyword::One => b"ONE",
        Keyword::First => b"FIRST",
        Keyword::All => b"ALL",
        Keyword::Full => b"FULL",
        Keyword::Up => b"UP",
        Keyword::Realized => b"REALIZED",
        Keyword::Unrealized => b"UNREALIZED",
        Keyword::Bounds => b"BOUNDS",
        Keyword::Proof => b"PROOF",
        Keyword::Compare => b"COMPARE",
        Keyword::Decide => b"DECIDE",
        Keyword::Generate => b"GENERATE",
        Keyword::Link => b"LINK",
        Keyword::Path => b"PATH",
        Keyword::Within => b"WITHIN",
        Keyword::Audit => b"AUDIT",
        Keyword::Core => b"CORE",
        Keyword::Where => b"WHERE",
        Keyword::And => b"AND",
        Keyword::Or => b"OR",
        Keyword::Not => b"NOT",
        Keyword::Implies => b"IMPLIES",
        Keyword::Iff => b"IFF",
        Keyword::Forall => b"FORALL",
        Keyword::Exists => b"EXISTS",
        Keyword::In => b"IN",
        Keyword::To => b"TO",
        Keyword::True => b"TRUE",
        Keyword::False => b"FALSE",
    }
}

/// The keyword among these that the word is.
fn keyword_among(word: &[u8], keywords: &[Keyword]) -> Option<Keyword>
    ensures found { IfSome result (λ keyword. word.now ≡ letters keyword) }
    ensures none { IfNone result (All (λ keyword. word.now ≡ letters keyword → ⊥) keywords.now) }
{
    for keyword in keywords {
        if word == letters(*keyword) {
            return Some(*keyword);
        }
    }
    None
}

/// The keyword that the word is.
pub fn keyword_of(word: &[u8]) -> Option<Keyword>
    ensures found { IfSome result (λ keyword. word.now ≡ letters keyword) }
    ensures none { IfNone result (IsNoKeyword word.now) }
{
    keyword_among(word, &KEYWORDS)
}

/// Whether the word is a keyword.
#[tactic(auto, unfolding(crate::specs::Keywords::is_keyword))]
pub fn is_keyword(word: &[u8]) -> bool
    ensures { result ≡ specs.is_keyword word.now }
{
    KEYWORDS.iter().any(|keyword| word == letters(*keyword))
}

/// No two keywords are written alike.
pub fn keywords_differ()
    ensures { (first second : AnyKeyword) → letters first ≡ letters second → first ≡ second }
{}
