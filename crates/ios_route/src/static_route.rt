use ios_lex::Word;

/// Where a static route leads.
#[derive(Debug, Drop)]
pub enum RouteExit {
    /// To this next hop, by the interface in whose network it lies.
    Hop(u32),
    /// Out of the interface of this name, to a next hop or to each address itself.
    Out(Word, Option<u32>),
    /// Nowhere: packets are dropped.
    Null,
}

/// A static route, as a line of a configuration says it.
#[derive(Debug, Drop)]
pub struct StaticRoute {
    /// The number of its line, from 1.
    pub line: u64,
    pub prefix: u32,
    /// How many bits of the prefix count, at most 32.
    pub len: u8,
    pub exit: RouteExit,
    pub distance: u8,
}
