//! The values of variables, without memory.

ghost use Rattle.std.specs.Prelude.{◌≡◌, ◌+◌, length, slice_get, MatchResult};
ghost use Rattle.std.specs.Str.{bytes_eq};
ghost use Rattle.sorted_logic.specs.Inside.Evaluation.{scope};

/// The values of variables: those that were given, then one for each quantifier.
#[derive(Drop)]
pub(crate) enum Scope<'a> {
    Given(&'a [u64]),
    More(&'a Scope<'a>, u64),
}

impl Scope<'_> {
    /// The value of a variable, or how far the variable lies past the end.
    fn find(&self, variable: u64) -> Result<u64, u64>
        ensures { MatchResult result (λ value. slice_get (scope self.now) variable ≡ Some value)
            (λ past. variable ≡ length (scope self.now) + past) }
    {
        match self {
            Scope::Given(values) => {
                if variable < values.len() as u64 {
                    Ok(values[variable as usize])
                } else {
                    Err(variable - values.len() as u64)
                }
            }
            Scope::More(before, value) => match before.find(variable) {
                Ok(found) => Ok(found),
                Err(past) => { if past == 0 { Ok(*value) } else { Err(past - 1) } }
            },
        }
    }

    /// The value of a variable.
    pub(crate) fn get(&self, variable: u64) -> Option<u64>
        ensures { result ≡ slice_get (scope self.now) variable }
    {
        match self.find(variable) {
            Ok(value) => Some(value),
            Err(_) => None,
        }
    }

    /// The values are these.
    pub(crate) fn equals(&self, values: &[u64]) -> bool
        ensures { result ≡ bytes_eq values.now (scope self.now) }
    {
        match self {
            Scope::Given(given) => values == *given,
            Scope::More(before, value) => match values.split_last() {
                Some((last, others)) => *last == *value && before.equals(others),
                None => false,
            },
        }
    }
}
