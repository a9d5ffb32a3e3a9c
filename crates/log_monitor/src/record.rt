//! The fields of one record: the second and the words of the aspects.
ghost use Rattle.std.specs.Prelude.{ℕ, ◌≡◌, ◌≢◌, ◌↔◌, ◌+◌, ◌≤◌, IsTrue, MatchOption, Some};
ghost use Rattle.std.specs.Prelude.{drop, map, take, length};
ghost use Rattle.std.specs.Fmt.{decimal};
ghost use Rattle.csv.specs.Records.{fields_of, field_at};
ghost use Rattle.aspect_player.specs.Lines.{word_of};
ghost use Rattle.log_monitor.specs.Log.{most_second, header_of, HasAspects};

use aspect_player::Aspect;
use csv::ByteRecord;
use itoa::Buffer;
use junction_model::Junction;

/// Whether a field is the number, in decimal digits.
pub fn is_decimal(field: &[u8], number: u64) -> bool
    ensures { IsTrue result ↔ (field.now ≡ decimal number) }
{
    let mut digits = Buffer::new();
    digits.format(number).as_bytes() == field
}

/// The second that a field is, in decimal digits.
pub fn second_in(field: &[u8]) -> Option<u32>
    ensures { MatchOption result ((n : ℕ) → n ≤ most_second → field.now ≢ decimal n)
        (λ n. field.now ≡ decimal n) }
{
    let Ok(text) = std::str::from_utf8(field) else {
        return None;
    };
    let Ok(second) = text.parse::<u32>() else {
        return None;
    };
    if is_decimal(field, u64::from(second)) {
        Some(second)
    } else {
        None
    }
}

/// The aspect of a word.
fn aspect_in(field: &[u8]) -> Option<Aspect>
    ensures { MatchOption result ((aspect : Aspect) → field.now ≢ word_of aspect)
        (λ aspect. field.now ≡ word_of aspect) }
{
    match field {
        b"red" => Some(Aspect::Red),
        b"red_amber" => Some(Aspect::RedAmber),
        b"green" => Some(Aspect::Green),
        b"amber" => Some(Aspect::Amber),
        _ => None,
    }
}

/// The aspects after the second; the cells after those of the groups are red.
pub fn row_in(read: &ByteRecord, groups: usize) -> Option<[Aspect; 16]>
    requires fields { length (fields_of read.now) ≡ groups + 1 }
    requires few { groups ≤ 16 }
    ensures { MatchOption result (¬ HasAspects (fields_of read.now))
        (λ row. drop 1 (fields_of read.now) ≡ map word_of (take groups row)) }
{
    let mut row = [Aspect::Red; 16];
    for i in 0..groups {
        let Some(field) = read.get(i + 1) else {
            unreachable!();
        };
        let Some(aspect) = aspect_in(field) else {
            return None;
        };
        row[i] = aspect;
    }
    Some(row)
}

/// Whether a field of a record is these bytes.
fn is_field(read: &ByteRecord, place: usize, bytes: &[u8]) -> bool
    ensures { IsTrue result ↔ (field_at (fields_of read.now) place ≡ Some bytes.now) }
{
    match read.get(place) {
        Some(field) => field == bytes,
        None => false,
    }
}

/// Whether a record is `second` and the names of the groups.
pub fn is_header(read: &ByteRecord, junction: &Junction) -> bool
    ensures { IsTrue result ↔ (fields_of read.now ≡ header_of junction.now) }
{
    junction.rules();
    let groups = junction.groups();
    if read.len() != groups.len() + 1 {
        return false;
    }
    if !is_field(read, 0, b"second") {
        return false;
    }
    for i in 0..groups.len() {
        if !is_field(read, i + 1, groups[i].label.bytes()) {
            return false;
        }
    }
    true
}
