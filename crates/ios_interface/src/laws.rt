ghost use Rattle.std.specs.Prelude.{◌≡◌, ℕ};
ghost use Rattle.std.specs.List.{IsDistinct};
ghost use Rattle.std.specs.Str.{bytes_eq};
ghost use Rattle.ios_lex.specs.declared.reason.IosReason.{IosReason};
ghost use Rattle.ios_lex.specs.Phrases.{Words};
ghost use Rattle.ios_interface.specs.Block.{Block};
ghost use Rattle.ios_interface.specs.Interfaces.{Interfaces, IsHeadingRefused, Opens, block_names};
ghost use Rattle.ios_interface.specs.Reading.{IsIgnored, IsRefused, Takes};

/// The words of a line make one thing of a block, or are ignored, or are refused for one reason: never two of these, and
/// one of them always.
pub fn one_line()
    ensures not_taken_and_ignored { (block new : Block) (words : Words) → Takes block words new
        → IsIgnored words → ⊥ }
    ensures not_taken_and_refused { (block new : Block) (words : Words) (why : IosReason)
        → Takes block words new → IsRefused words why → ⊥ }
    ensures not_ignored_and_refused { (words : Words) (why : IosReason) → IsIgnored words
        → IsRefused words why → ⊥ }
    ensures not_none { (block : Block) (words : Words) → ((new : Block) → Takes block words new → ⊥)
        → (IsIgnored words → ⊥) → ((why : IosReason) → IsRefused words why → ⊥) → ⊥ }
    ensures same_block { (block new other : Block) (words : Words) → Takes block words new
        → Takes block words other → new ≡ other }
    ensures same_reason { (words : Words) (why other : IosReason) → IsRefused words why
        → IsRefused words other → why ≡ other }
{}

/// The words behind `interface` open one block, or are refused for one reason: never both, and one of them always.
pub fn one_heading()
    ensures not_opened_and_refused { (old new : Interfaces) (words : Words) (place : ℕ)
        (why : IosReason) → Opens old words new place → IsHeadingRefused old words why → ⊥ }
    ensures not_none { (old : Interfaces) (words : Words)
        → ((new : Interfaces) (place : ℕ) → Opens old words new place → ⊥)
        → ((why : IosReason) → IsHeadingRefused old words why → ⊥) → ⊥ }
    ensures same_blocks { (old new other : Interfaces) (words : Words) (place another : ℕ)
        → Opens old words new place → Opens old words other another → new ≡ other }
    // where no two blocks have one name
    ensures same_place { (old new : Interfaces) (words : Words) (place another : ℕ)
        → IsDistinct bytes_eq (block_names new.blocks)
        → Opens old words new place → Opens old words new another → place ≡ another }
    ensures same_reason { (old : Interfaces) (words : Words) (why other : IosReason)
        → IsHeadingRefused old words why → IsHeadingRefused old words other → why ≡ other }
{}
