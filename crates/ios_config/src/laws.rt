ghost use Rattle.std.specs.Prelude.{◌≡◌, ℕ, List, Contains};
ghost use Rattle.ios_lex.specs.Lines.{AreLines, Reading};
ghost use Rattle.ios_lex.specs.RawLines.{raw_lines};
ghost use Rattle.ios_lex.specs.declared.reason.IosReason.{IosReason};
ghost use Rattle.ios_acl.specs.Block.{IsBlock, IsBlockName};
ghost use Rattle.ios_acl.specs.List.{AccessList, IsAccessList};
ghost use Rattle.ios_acl.specs.Spelling.{block_text};
ghost use Rattle.ios_route.specs.Interfaces.{Interface};
ghost use Rattle.ios_config.specs.OwnLines.{Counts, IsOfItsLines, IsOfItsSettings};
ghost use Rattle.ios_config.specs.Reading.{IsRefused, Reads};
ghost use Rattle.ios_config.specs.Router.{Router, of_list};

/// A configuration is read as one router or refused at one line for one reason: not both, and not neither.
pub fn one_config()
    ensures same_router { (known : List (List ℕ)) (bytes : List ℕ) (router other : Router)
        → Reads known bytes router → Reads known bytes other → router ≡ other }
    ensures same_refusal { (known : List (List ℕ)) (bytes : List ℕ) (line other : ℕ)
        (why reason : IosReason) → IsRefused known bytes line why
        → IsRefused known bytes other reason → (line ≡ other) × (why ≡ reason) }
    ensures not_both { (known : List (List ℕ)) (bytes : List ℕ) (router : Router) (line : ℕ)
        (why : IosReason) → Reads known bytes router → IsRefused known bytes line why → ⊥ }
    ensures not_neither { (known : List (List ℕ)) (bytes : List ℕ)
        → ((router : Router) → Reads known bytes router → ⊥)
        → ((line : ℕ) (why : IosReason) → IsRefused known bytes line why → ⊥) → ⊥ }
{}

/// What is written of a list is a configuration of this one list, with entries or without, and of nothing else; and so
/// is each text that is a block of the list.
pub fn written_list()
    ensures written { (known : List (List ℕ)) (list : AccessList) → IsAccessList list
        → IsBlockName list.extended list.name → Reads known (block_text list) (of_list list) }
    ensures block { (known : List (List ℕ)) (text : List ℕ) (list : AccessList) → IsBlock text list
        → IsBlockName list.extended list.name → Reads known text (of_list list) }
{}

/// Each list is what its own lines say, in their order, and each interface what stands below its headings; and each line
/// that is ignored is counted once.
pub fn own_lines()
    ensures lists { (known : List (List ℕ)) (bytes : List ℕ) (router : Router)
        (readings : List Reading) (list : AccessList) → Reads known bytes router
        → AreLines 1 (raw_lines bytes) readings → Contains router.lists list
        → IsOfItsLines readings list }
    ensures interfaces { (known : List (List ℕ)) (bytes : List ℕ) (router : Router)
        (readings : List Reading) (interface : Interface) → Reads known bytes router
        → AreLines 1 (raw_lines bytes) readings → Contains router.interfaces interface
        → IsOfItsSettings readings interface }
    ensures ignored { (known : List (List ℕ)) (bytes : List ℕ) (router : Router)
        (readings : List Reading) → Reads known bytes router
        → AreLines 1 (raw_lines bytes) readings → Counts readings router.ignored }
{}
