ghost use Rattle.std.specs.Prelude.{◌≡◌, ℕ, IfSome, IfNone};
ghost use Rattle.ios_lex.specs.Mask.{IsPrefixMask};

/// The length of the prefix that the mask keeps, where the mask is so many ones and then zeros.
pub fn prefix_len(mask: u32) -> Option<u8>
    ensures found { IfSome result (IsPrefixMask mask) }
    ensures none { IfNone result ((n : ℕ) → IsPrefixMask mask n → ⊥) }
{
    let size = (1u64 << 32) - u64::from(mask);
    let zeros = size.ilog2();
    if size == 1 << zeros {
        Some((32 - zeros) as u8)
    } else {
        None
    }
}
