//! What stands in a JSON value.
ghost use Rattle.std.specs.Prelude.{◌≡◌, map, option_map};
ghost use Rattle.serde_json.specs.Events.{members_len};
ghost use Rattle.serde_json.specs.Find.{get_member};
ghost use Rattle.serde_json.specs.View.{view, members_view};
ghost use Rattle.plan_certificate.specs.Members.{whole_under};
ghost use Rattle.plan_certificate.specs.Shape.{list_of};

use serde_json::{Map, Value};

/// The elements of a list.
pub fn list(value: &Value) -> Option<&Vec<Value>>
    ensures { option_map (λ a. map view a.now.items) result ≡ list_of (view value.now) }
{
    value.as_array()
}

/// The member of a key.
pub fn member<'m>(map: &'m Map<String, Value>, key: &str) -> Option<&'m Value>
    ensures { option_map (λ v. view v.now) result
        ≡ get_member key.now (members_view map.now.entries) }
{
    map.get(key)
}

/// How many members an object has.
pub fn member_count(map: &Map<String, Value>) -> usize
    ensures { result ≡ members_len (members_view map.now.entries) }
{
    map.len()
}

/// The whole number of a key.
pub fn whole_in(map: &Map<String, Value>, key: &str) -> Option<u64>
    ensures { result ≡ whole_under key.now (members_view map.now.entries) }
{
    member(map, key)?.as_u64()
}
