ghost use Rattle.std.specs.Prelude.{◌≡◌, map, option_map, ◌-◌, take};
ghost use Rattle.std.specs.Option.{option_copied};
ghost use Rattle.toml.specs.View.{view, array_view, table_view};
ghost use Rattle.toml.specs.Data.{get_member};
ghost use Rattle.junction_files.specs.Document.{word_of, numbered_version, version_of, value_in, text_in, whole_in, array_in, list_in, elements_in};

use crate::faults::Key;
use toml::{Table, Value};

/// The version of a file, which says which keys its tables may hold.
#[derive(Clone, Copy, Debug, PartialEq, Eq)]
pub enum Version {
    First,
    Second,
}

/// A key as it is written in a file.
pub fn word(key: Key) -> &'static str
    ensures { result.now ≡ word_of key }
{
    match key {
        Key::Whole => "whole",
        Key::Other => "other",
        Key::Version => "version",
        Key::Name => "name",
        Key::LeastCycle => "least_cycle",
        Key::GreatestCycle => "greatest_cycle",
        Key::Group => "group",
        Key::Lane => "lane",
        Key::Conflict => "conflict",
        Key::Link => "link",
        Key::MinGreen => "min_green",
        Key::Amber => "amber",
        Key::RedAmber => "red_amber",
        Key::StartLost => "start_lost",
        Key::EndGain => "end_gain",
        Key::MaxGreen => "max_green",
        Key::Arrival => "arrival",
        Key::Saturation => "saturation",
        Key::Limit => "limit",
        Key::A => "a",
        Key::B => "b",
        Key::AToB => "a_to_b",
        Key::BToA => "b_to_a",
        Key::Leader => "leader",
        Key::Follower => "follower",
        Key::After => "after",
    }
}

/// What stands at a key of a table.
fn entry<'t>(table: &'t Table, word: &str) -> Option<&'t Value>
    ensures { option_map (λ v. view v.now) result ≡ get_member word.now (table_view table.now) }
{
    table.get(word)
}

/// What stands at a key of an element; `None` where it isn't there or the element is no table.
pub fn value<'t>(element: &'t Value, key: Key) -> Option<&'t Value>
    ensures { option_map (λ v. view v.now) result ≡ value_in (view element.now) key }
{
    match element.as_table() {
        Some(table) => entry(table, word(key)),
        None => None,
    }
}

pub fn text<'t>(element: &'t Value, key: Key) -> Option<&'t str>
    ensures { option_copied result ≡ text_in (view element.now) key }
{
    match value(element, key) {
        Some(value) => value.as_str(),
        None => None,
    }
}

pub fn whole(element: &Value, key: Key) -> Option<i64>
    ensures { result ≡ whole_in (view element.now) key }
{
    match value(element, key) {
        Some(value) => value.as_integer(),
        None => None,
    }
}

fn numbered_version(number: i64) -> Version
    ensures { result ≡ numbered_version number }
{
    if number == 2 {
        Version::Second
    } else {
        Version::First
    }
}

/// The version of a document: the second where it gives the number 2, and else the first.
pub fn version_of(document: &Value) -> Version
    ensures { result ≡ version_of (view document.now) }
{
    match whole(document, Key::Version) {
        Some(number) => numbered_version(number),
        None => Version::First,
    }
}

fn array<'t>(element: &'t Value, key: Key) -> Option<&'t Vec<Value>>
    ensures { option_map (λ a. array_view a.now) result ≡ array_in (view element.now) key }
{
    match value(element, key) {
        Some(value) => value.as_array(),
        None => None,
    }
}

/// The elements of the list at a key.
pub fn list<'t>(element: &'t Value, key: Key) -> Option<&'t [Value]>
    ensures { option_map (λ elements. map view elements.now) result
        ≡ list_in (view element.now) key }
{
    match array(element, key) {
        Some(elements) => Some(elements.as_slice()),
        None => None,
    }
}

/// The elements of the list at a key; none where there is no list.
pub fn elements<'t>(element: &'t Value, key: Key) -> &'t [Value]
    ensures { map view result.now ≡ elements_in (view element.now) key }
{
    match list(element, key) {
        Some(elements) => elements,
        None => &[],
    }
}

/// The elements of the list at a key before a number, counted from 1.
pub fn elements_before<'t>(document: &'t Value, list: Key, number: usize) -> &'t [Value]
    ensures { map view result.now ≡ take (number - 1) (elements_in (view document.now) list) }
{
    let elements = elements(document, list);
    let end = number.saturating_sub(1).min(elements.len());
    &elements[..end]
}
