ghost use Rattle.std.specs.Prelude.{◌≡◌};
ghost use Rattle.ios_route.specs.Networks as specs;

/// The first bits of an address, so many of 32, as a number.
pub fn first_bits(len: u8, address: u32) -> u32
    ensures { result ≡ specs.first_bits len address }
{
    (u64::from(address) >> 32u8.saturating_sub(len)) as u32
}

/// The first address of the network that an address lies in.
pub fn network(len: u8, address: u32) -> u32
    ensures { result ≡ specs.network len address }
{
    (u64::from(first_bits(len, address)) << 32u8.saturating_sub(len)) as u32
}

/// Whether the two addresses agree in their first bits.
pub fn in_one_network(len: u8, address: u32, other: u32) -> bool
    ensures { result ≡ specs.in_one_network len address other }
{
    first_bits(len, address) == first_bits(len, other)
}
