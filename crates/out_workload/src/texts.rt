//! The text of a generated program.

ghost use Rattle.std.specs.Prelude.{◌≡◌, ◌≤◌, ◌<◌, ◌++◌, ◌∷◌, [], IfOk, decimal};
ghost use Rattle.base_limits.specs.declared.limits.TheConstants.{MOST_LOOPS};
ghost use Rattle.out_workload.specs.Draws.{after_loop, loop_at};
ghost use Rattle.out_workload.specs.Texts.{copy_line, generated_text, loop_text, start_line, step_line, variable_name, while_line};

use crate::draws::{Loop, next_loop};
use itoa::Buffer;
use std::alloc::{AllocError, Global};

/// Appends a number.
pub(crate) fn push_number(text: &mut Vec<u8>, number: u64) -> Result<(), AllocError>
    ensures { IfOk result (λ _. text.new.items ≡ text.old.items ++ decimal number) }
{
    let mut buffer = Buffer::new();
    text.extend_from_slice(buffer.format(number).as_bytes())?;
    Ok(())
}

/// Appends the name of a variable.
fn push_name(text: &mut Vec<u8>, variable: u32) -> Result<(), AllocError>
    requires { variable < 3 }
    ensures { IfOk result (λ _. text.new.items ≡ text.old.items ++ variable_name variable) }
{
    text.push(b'a' + variable as u8)?;
    Ok(())
}

/// Appends `V = 0;`.
fn push_start(text: &mut Vec<u8>, variable: u32) -> Result<(), AllocError>
    requires { variable < 3 }
    ensures { IfOk result (λ _. text.new.items ≡ text.old.items ++ start_line (variable_name variable)) }
{
    text.extend_from_slice(b"  ")?;
    push_name(text, variable)?;
    text.extend_from_slice(b" = 0;\n")?;
    Ok(())
}

/// Appends `while (V < B) {`.
fn push_while(text: &mut Vec<u8>, variable: u32, bound: u32) -> Result<(), AllocError>
    requires { variable < 3 }
    ensures { IfOk result (λ _. text.new.items ≡ text.old.items ++ while_line (variable_name variable) bound) }
{
    text.extend_from_slice(b"  while (")?;
    push_name(text, variable)?;
    text.extend_from_slice(b" < ")?;
    push_number(text, bound as u64)?;
    text.extend_from_slice(b") {\n")?;
    Ok(())
}

/// Appends `V += S;`.
fn push_step(text: &mut Vec<u8>, variable: u32, step: u32) -> Result<(), AllocError>
    requires { variable < 3 }
    ensures { IfOk result (λ _. text.new.items ≡ text.old.items ++ step_line (variable_name variable) step) }
{
    text.extend_from_slice(b"    ")?;
    push_name(text, variable)?;
    text.extend_from_slice(b" += ")?;
    push_number(text, step as u64)?;
    text.extend_from_slice(b";\n")?;
    Ok(())
}

/// Appends `W = V;`.
fn push_copy(text: &mut Vec<u8>, to: u32, from: u32) -> Result<(), AllocError>
    requires to { to < 3 }
    requires from { from < 3 }
    ensures { IfOk result (λ _. text.new.items ≡ text.old.items ++ copy_line (variable_name to) (variable_name from)) }
{
    text.extend_from_slice(b"    ")?;
    push_name(text, to)?;
    text.extend_from_slice(b" = ")?;
    push_name(text, from)?;
    text.extend_from_slice(b";\n")?;
    Ok(())
}

/// Appends the lines of a loop.
fn push_loop(text: &mut Vec<u8>, made: Loop) -> Result<(), AllocError>
    requires { made.variable < 3 }
    ensures { IfOk result (λ _. text.new.items ≡ text.old.items ++ loop_text made) }
{
    push_start(text, made.variable)?;
    push_while(text, made.variable, made.bound)?;
    push_step(text, made.variable, made.step)?;
    push_copy(text, (made.variable + 1) % 3, made.variable)?;
    text.extend_from_slice(b"  }\n")?;
    Ok(())
}

/// Appends the lines of the loop that is drawn next, and gives the state after it.
fn push_drawn(text: &mut Vec<u8>, state: u32) -> Result<u32, AllocError>
    requires { state < 2147483648 }
    ensures text { IfOk result (λ _. text.new.items ≡ text.old.items ++ loop_text (loop_at state)) }
    ensures state { IfOk result (λ after. after ≡ after_loop state) }
    ensures small { IfOk result (λ after. after < 2147483648) }
{
    let (made, after) = next_loop(state);
    push_loop(text, made)?;
    Ok(after)
}

/// The text of a program with this number of loops, drawn from the seed (docs/FORMATS.md, "The generator and the summary").
pub fn generate(alloc: Global, seed: u32, loops: u32) -> Result<Vec<u8>, AllocError>
    requires seed { seed < 2147483648 }
    requires some { 1 ≤ loops }
    requires few { loops ≤ MOST_LOOPS }
    ensures { IfOk result (λ text. text.items ≡ generated_text seed loops) }
{
    let mut text = Vec::new(alloc);
    text.extend_from_slice(b"int main() {\n  int a = 0, b = 0, c = 0;\n")?;
    let mut state = seed;
    for _ in 0..loops {
        state = push_drawn(&mut text, state)?;
    }
    text.extend_from_slice(b"  return 0;\n}\n")?;
    Ok(text)
}
