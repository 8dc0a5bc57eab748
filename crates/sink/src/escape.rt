// How text is escaped.

ghost use Rattle.std.specs.Prelude.{◌≡◌, ◌++◌, IfOk, OnOk, string_bytes};
ghost use Rattle.sink.specs.Escapes.{escaped, escaped_character, is_shown, numbered};

use std::alloc::{AllocError, Global};

// A text, escaped: what would begin or end markup becomes an entity, and a control character is shown as its number.
pub fn escaped(alloc: Global, text: &str) -> Result<String, AllocError>
    ensures { IfOk result (λ markup. string_bytes markup ≡ escaped text.now) }
{
    let mut markup = String::new(alloc);
    for character in text.chars() {
        add_character(&mut markup, character)?;
    }
    Ok(markup)
}

// Adds a character, escaped.
fn add_character(markup: &mut String, character: char) -> Result<(), AllocError>
    ensures { OnOk result (string_bytes markup.new ≡ string_bytes markup.old ++ escaped_character character) }
{
    match character {
        '&' => markup.push_str("&amp;"),
        '<' => markup.push_str("&lt;"),
        '>' => markup.push_str("&gt;"),
        '"' => markup.push_str("&quot;"),
        '\'' => markup.push_str("&#39;"),
        _ if is_shown(character) => markup.push(character),
        _ => add_number(markup, character),
    }
}

// Adds a character as its number.
fn add_number(markup: &mut String, character: char) -> Result<(), AllocError>
    ensures { OnOk result (string_bytes markup.new ≡ string_bytes markup.old ++ numbered character) }
{
    markup.push_str("\\u{")?;
    write!(markup, "{:x}", u32::from(character))?;
    markup.push('}')
}

// Whether a character is shown as it is: a line feed, or a character that is not a control character and is allowed in XML.
fn is_shown(character: char) -> bool
    ensures { result ≡ is_shown character }
{
    character == '\n'
        || !(character.is_control() || character == '\u{fffe}' || character == '\u{ffff}')
}
