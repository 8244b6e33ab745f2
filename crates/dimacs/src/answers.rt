ghost use Rattle.std.specs.Prelude.{◌≡◌, ◌^◌, ◌<◌, length, IfOk};
ghost use Rattle.std.specs.String.{string_bytes};
ghost use Rattle.dimacs.specs.Text.{model_text, no_model_text};

use crate::NoMemory;
use certificates::push_lit;
use cnf::Lit;
use std::alloc::Global;

/// What a solver writes of a model: its literals, one for each variable, in one line.
#[tactic(auto, unfolding(crate::specs::Text::model_text))]
pub fn model_text(alloc: Global, values: &[bool]) -> Result<Vec<u8>, NoMemory>
    requires { length values.now < 2 ^ 62 }
    ensures { IfOk result (λ text. text.items ≡ model_text values.now) }
{
    let mut text = Vec::from_slice(alloc, b"s SATISFIABLE\nv ")?;
    for (var, value) in values.iter().enumerate() {
        push_lit(alloc, &mut text, Lit::new(var, !*value))?;
        text.push(b' ')?;
    }
    text.extend_from_slice(b"0\n")?;
    Ok(text)
}

/// What a solver writes where there is no model.
#[tactic(auto, unfolding(crate::specs::Text::no_model_text))]
pub fn no_model_text() -> &'static str
    ensures { result.now ≡ no_model_text }
{
    "s UNSATISFIABLE\n"
}
