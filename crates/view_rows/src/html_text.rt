//! A text as text of a page.
ghost use Rattle.std.specs.Prelude.{◌≡◌, ◌++◌, IfOk, OnOk, flat_map, string_bytes};
ghost use Rattle.std.specs.Str.{chars};
ghost use Rattle.view_rows.specs.HtmlTexts as spec;

use std::alloc::{AllocError, Global};

#[tactic(auto, unfolding(crate::specs::HtmlTexts::page_character))]
fn write_character(text: &mut String, character: char) -> Result<(), AllocError>
    ensures { OnOk result (string_bytes text.new ≡ string_bytes text.old ++ spec.page_character character) }
{
    match character {
        '&' => text.push_str("&amp;"),
        '<' => text.push_str("&lt;"),
        '>' => text.push_str("&gt;"),
        '"' => text.push_str("&quot;"),
        '\'' => text.push_str("&#39;"),
        _ => text.push(character),
    }
}

fn write_characters(text: &mut String, characters: &[char]) -> Result<(), AllocError>
    ensures { OnOk result (string_bytes text.new
        ≡ string_bytes text.old ++ flat_map spec.page_character characters.now) }
{
    for character in characters {
        write_character(text, *character)?;
    }
    Ok(())
}

fn characters_of(alloc: Global, text: &str) -> Result<Vec<char>, AllocError>
    ensures { IfOk result (λ cs. cs.items ≡ chars text.now) }
{
    text.chars().collect(alloc)
}

/// Returns a text as text of a page.
pub(crate) fn html_text(alloc: Global, text: &str) -> Result<String, AllocError>
    ensures { IfOk result (λ html. string_bytes html ≡ spec.html_text text.now) }
{
    let characters = characters_of(alloc, text)?;
    let mut html = String::new(alloc);
    write_characters(&mut html, &characters)?;
    Ok(html)
}
