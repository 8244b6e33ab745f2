//! The sorts of variables while a formula is checked: no memory is taken, and a sort is found in few steps however deep the
//! quantifiers nest.

ghost use Rattle.std.specs.Prelude.{◌≡◌, ◌+◌, ◌<◌, ◌^◌, ◌++◌, Some, length, slice_get, MatchResult, IfSome};
ghost use Rattle.sorted_logic.specs.Inside.SortRows.{in_block, in_row, IsOfSize, AreOfSize};

use crate::term::Sort;
use std::marker::Model;

/// The sorts of some variables, one after the other: one sort, or two blocks of one size and a sort.
#[derive(Drop)]
pub(crate) enum SortBlock<'a> {
    One(Sort),
    Two(&'a SortBlock<'a>, &'a SortBlock<'a>, Sort),
}

/// The sorts that were given, and then blocks, each with its size.
#[derive(Drop)]
pub(crate) enum SortRow<'a> {
    Given(&'a [Sort]),
    More(&'a SortRow<'a>, &'a SortBlock<'a>, u64),
}

/// The sorts of all variables: those that were given, then one for each quantifier.
#[derive(Drop)]
pub(crate) struct SortScope<'a> {
    pub(crate) row: &'a SortRow<'a>,
}

impl<'a> Model for SortScope<'a> {
    ghost use Rattle.std.specs.Prelude.{List};
    ghost use Rattle.sorted_logic.specs.declared.term.Sort.{Sort};
    ghost use Rattle.sorted_logic.specs.Inside.SortRows.{in_row, AreOfSize};

    ghost Value = { List Sort };

    ghost view = { λ scope. in_row scope.row.now };

    ghost invariant = { λ scope. AreOfSize scope.row.now };
}

/// Blocks of so many sorts are not put together, so that no size wraps.
const LARGE: u64 = 1 << 40;

/// Two blocks of one size at the end of a row, and what stands before them.
#[derive(Drop)]
pub(crate) struct LastTwo<'a> {
    pub(crate) before: &'a SortRow<'a>,
    pub(crate) earlier: &'a SortBlock<'a>,
    pub(crate) later: &'a SortBlock<'a>,
    pub(crate) size: u64,
}

impl SortBlock<'_> {
    /// The sort at a place of a block of so many.
    fn get(&self, size: u64, at: u64) -> Sort
        requires sized { IsOfSize self.now size }
        requires within { at < size }
        ensures { slice_get (in_block self.now) at ≡ Some result }
    {
        match self {
            SortBlock::One(sort) => *sort,
            SortBlock::Two(earlier, later, sort) => {
                let half = size / 2;
                if at < half {
                    earlier.get(half, at)
                } else if at - half < half {
                    later.get(half, at - half)
                } else {
                    *sort
                }
            }
        }
    }
}

impl SortRow<'_> {
    /// The sort of a variable, or how far the variable lies past the end.
    fn find(&self, variable: u64) -> Result<Sort, u64>
        requires { AreOfSize self.now }
        ensures { MatchResult result (λ s. slice_get (in_row self.now) variable ≡ Some s)
            (λ past. variable ≡ length (in_row self.now) + past) }
    {
        match self {
            SortRow::Given(sorts) => {
                if variable < sorts.len() as u64 {
                    Ok(sorts[variable as usize])
                } else {
                    Err(variable - sorts.len() as u64)
                }
            }
            SortRow::More(before, block, size) => match before.find(variable) {
                Ok(found) => Ok(found),
                Err(past) => {
                    if past < *size {
                        Ok(block.get(*size, past))
                    } else {
                        Err(past - *size)
                    }
                }
            },
        }
    }
}

impl<'a> SortScope<'a> {
    /// The sort of a variable.
    pub(crate) fn get(&self, variable: u64) -> Option<Sort>
        ensures { result ≡ slice_get self.now variable }
    {
        match self.row.find(variable) {
            Ok(sort) => Some(sort),
            Err(_) => None,
        }
    }

    /// Two blocks at the end that make one block with the next sort.
    pub(crate) fn last_two(&self) -> Option<LastTwo<'a>>
        ensures row { IfSome result (λ two. self.now
            ≡ in_row two.before.now ++ (in_block two.earlier.now ++ in_block two.later.now)) }
        ensures before { IfSome result (λ two. AreOfSize two.before.now) }
        ensures earlier { IfSome result (λ two. IsOfSize two.earlier.now two.size) }
        ensures later { IfSome result (λ two. IsOfSize two.later.now two.size) }
        ensures small { IfSome result (λ two. two.size < 2 ^ 40) }
    {
        match self.row {
            SortRow::More(row, later, size) => match row {
                SortRow::More(before, earlier, other) => {
                    if *size == *other && *size < LARGE {
                        Some(LastTwo {
                            before,
                            earlier,
                            later,
                            size: *size,
                        })
                    } else {
                        None
                    }
                }
                SortRow::Given(_) => None,
            },
            SortRow::Given(_) => None,
        }
    }
}
