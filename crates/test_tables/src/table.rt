use std::alloc::Global;
use std::test::Fail;

/// The table with the answers of now. A row is what is given, ` => ` and the answer, and `end` behind it. What stands
/// behind the last row is left out.
pub fn answered<F: FnMut(Global, &str, &mut String) -> Result<(), Fail>>(
    alloc: Global,
    table: &str,
    end: &str,
    mut answer: F,
) -> Result<String, Fail>
    requires { F.IsAlwaysCallable answer }
{
    let mut text = String::new(alloc);
    let mut rest = table;
    for _ in 0..table.len() {
        let Some((given, others)) = rest.split_once(" => ") else {
            break;
        };
        let (_, next) = others.split_once(end).ok_or("a row without an end")?;
        text.push_str(given)?;
        text.push_str(" => ")?;
        answer(alloc, given, &mut text)?;
        text.push_str(end)?;
        rest = next;
    }
    Ok(text)
}
