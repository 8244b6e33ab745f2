ghost use Rattle.std.specs.Prelude.{◌≡◌, ℕ, Bool, List, Some};
ghost use Rattle.ios_lex.specs.Phrases.{Words};
ghost use Rattle.ios_acl.specs.List.{AccessList};
ghost use Rattle.ios_lex.specs.declared.taken.Taken.{Taken as TakenIs};
ghost use Rattle.ios_lists.specs.Entries.{ReadsEntry, IsEntryRefused};
ghost use Rattle.ios_lists.specs.Heads.{OpensBlock, IsBlockRefused};
ghost use Rattle.ios_lists.specs.Lists.{HaveDifferentNames, kind_named};
ghost use Rattle.ios_lists.specs.Numbered.{ReadsNumbered, IsNumberedRefused};
ghost use Rattle.ios_lists.specs.Outcomes.{IsExactlyOne};

/// A line of a numbered list, a head, and a line of the block of a list that is there have one reading or one refusal.
pub fn one_list_line()
    ensures numbered { (lists : List AccessList) (words : Words)
        → IsExactlyOne (List AccessList × TakenIs) (λ made. ReadsNumbered lists words made.0 made.1)
        (IsNumberedRefused lists words) }
    ensures head { (lists : List AccessList) (words : Words) → HaveDifferentNames lists
        → IsExactlyOne (List AccessList × ℕ) (λ made. OpensBlock lists words made.0 made.1)
        (IsBlockRefused lists words) }
    ensures entry { (lists : List AccessList) (name : List ℕ) (extended : Bool) (words : Words)
        → kind_named lists name ≡ Some extended
        → IsExactlyOne (List AccessList) (ReadsEntry lists name words)
        (IsEntryRefused lists name words) }
{}
