use certificates::Derivation;

/// What a search finds.
#[derive(Debug, Drop)]
pub enum Solved {
    /// The least model, where false is before true and the least variable counts most: a value for each variable.
    Least(Vec<bool>),
    /// There is none, as the derivation shows: its last item adds the empty clause, and no other one does.
    None(Derivation),
}
