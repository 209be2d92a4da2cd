//! A text of the words, as it stands in a fault.

ghost use Rattle.std.specs.Prelude.{◌≡◌, ◌++◌, IfOk, OnOk, string_bytes};
ghost use Rattle.command_line.specs.OneLine.{shown_char, one_line};

use std::alloc::{AllocError, Global};

/// The text on one line: its line feeds and carriage returns are shown as in Rust's strings. Fails
/// only if memory is missing.
pub fn on_one_line(alloc: Global, text: &str) -> Result<String, AllocError>
    ensures { IfOk result (λ line. string_bytes line ≡ one_line text.now) }
{
    let mut line = String::new(alloc);
    for character in text.chars() {
        push_shown(&mut line, character)?;
    }
    Ok(line)
}

/// Appends a character, or what stands for it on one line.
fn push_shown(line: &mut String, character: char) -> Result<(), AllocError>
    ensures { OnOk result (string_bytes line.new ≡ string_bytes line.old ++ shown_char character) }
{
    match character {
        '\n' => line.push_str("\\n"),
        '\r' => line.push_str("\\r"),
        _ => line.push(character),
    }
}
