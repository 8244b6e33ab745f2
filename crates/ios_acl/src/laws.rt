ghost use Rattle.std.specs.Prelude.{◌≡◌, ◌⊎◌, ◌↔◌, ℕ, true, IsTrue};
ghost use Rattle.std.specs.Int.{bit_at};
ghost use Rattle.ios_lex.specs.declared.reason.IosReason.{IosReason};
ghost use Rattle.ios_lex.specs.Phrases.{Words};
ghost use Rattle.ios_acl.specs.List.{AccessList};
ghost use Rattle.ios_acl.specs.Matching.{matches_established};
ghost use Rattle.ios_acl.specs.Reading.{IsRefused, Reads};

/// The words of a line give one list or are refused for one reason: not both, and not neither.
pub fn one_reading()
    ensures not_both { (list new : AccessList) (words : Words) (why : IosReason)
        → Reads list words new → IsRefused list words why → ⊥ }
    ensures not_neither { (list : AccessList) (words : Words)
        → ((new : AccessList) → Reads list words new → ⊥)
        → ((why : IosReason) → IsRefused list words why → ⊥) → ⊥ }
    ensures same_list { (list new other : AccessList) (words : Words) → Reads list words new
        → Reads list words other → new ≡ other }
    ensures same_reason { (list : AccessList) (words : Words) (why other : IosReason)
        → IsRefused list words why → IsRefused list words other → why ≡ other }
{}

/// A segment is of an established connection where RST is set, the bit of 4, or ACK, that of 16.
pub fn established_bits()
    ensures { (flags : ℕ) → IsTrue (matches_established flags true)
        ↔ ((bit_at flags 2 ≡ 1) ⊎ (bit_at flags 4 ≡ 1)) }
{}
