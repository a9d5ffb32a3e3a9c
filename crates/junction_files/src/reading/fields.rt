ghost use Rattle.std.specs.Prelude.{◌≡◌, position};
ghost use Rattle.toml.specs.View.{view};
ghost use Rattle.junction_files.specs.Meaning.{number_or, number_of, text_of, has_name, group_number};
ghost use Rattle.junction_files.specs.Faultless.{IsReadable, HasTitle, HasLabel, HasReference};

use crate::document::{elements, text, whole};
use crate::faults::Key;
use sig_base::{Label, Title};
use toml::Value;

/// The whole number at a key, or a default where the key is missing.
pub fn number_or(element: &Value, key: Key, default: u32) -> u32
    requires { IsReadable default (view element.now) key }
    ensures { result ≡ number_or default (view element.now) key }
{
    match whole(element, key) {
        Some(number) => number as u32,
        None => default,
    }
}

/// The whole number at a key.
pub fn number(element: &Value, key: Key) -> u32
    requires { IsReadable 0 (view element.now) key }
    ensures { result ≡ number_of (view element.now) key }
{
    number_or(element, key, 0)
}

/// The title at a document's name.
pub fn title(document: &Value) -> Title
    requires { HasTitle (view document.now) }
    ensures { result ≡ text_of (view document.now) Key.Name }
{
    let Some(name) = text(document, Key::Name) else {
        unreachable!()
    };
    let Some(title) = Title::new(name.as_bytes()) else {
        unreachable!()
    };
    title
}

/// The label at an element's name.
pub fn label(element: &Value) -> Label
    requires { HasLabel (view element.now) }
    ensures { result ≡ text_of (view element.now) Key.Name }
{
    let Some(name) = text(element, Key::Name) else {
        unreachable!()
    };
    let Some(label) = Label::new(name.as_bytes()) else {
        unreachable!()
    };
    label
}

fn has_name(element: &Value, name: &str) -> bool
    ensures { result ≡ has_name name.now (view element.now) }
{
    text(element, Key::Name).unwrap_or("") == name
}

fn first_named(elements: &[Value], name: &str) -> Option<usize>
    ensures { result ≡ position (λ element. has_name name.now (view element)) elements.now }
{
    elements.iter().position(|element| has_name(element, name))
}

/// The number of the first group with the name; 0 where there is none.
fn group_number(document: &Value, name: &str) -> usize
    ensures { result ≡ group_number (view document.now) name.now }
{
    first_named(elements(document, Key::Group), name).unwrap_or(0)
}

/// The number of the group whose name stands at a key.
pub fn reference(document: &Value, element: &Value, key: Key) -> u32
    requires { HasReference (view document.now) (view element.now) key }
    ensures { result ≡ group_number (view document.now) (text_of (view element.now) key) }
{
    let Some(name) = text(element, key) else {
        unreachable!()
    };
    group_number(document, name) as u32
}
