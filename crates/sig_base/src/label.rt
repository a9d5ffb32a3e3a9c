ghost use Rattle.std.specs.Prelude.{◌≡◌, ◌↔◌, IsTrue, IsSome, IfSome};
ghost use Rattle.std.specs.Str.{bytes_eq};
ghost use Rattle.std.specs.Cmp.Rules.{comparing};
ghost use Rattle.std.proofs.Common.{rules};
ghost use Rattle.sig_base.specs.Text.{IsLabel, IsLabelByte};

use std::marker::Model;

/// The name of a group or a lane: 1 to 16 bytes, each a letter A to Z or a to z, a digit, `_` or `-`.
/// Contracts see a label as the list of its bytes.
#[derive(Clone, Copy, Debug)]
pub struct Label {
    bytes: [u8; 16],
    len: usize,
}

impl Model for Label {
    ghost use Rattle.std.specs.Prelude.{ℕ, List, take, length};
    ghost use Rattle.sig_base.specs.Text.{IsLabel};
    ghost use Rattle.sig_base.specs.Padding.{IsPadded, padded_to};

    ghost Value = { List ℕ };

    ghost view = { λ l. take l.len l.bytes };

    ghost invariant = { λ l. IsLabel (take l.len l.bytes) × IsPadded 16 l.bytes l.len };

    ghost inverse = { λ name. record { bytes = padded_to 16 name; len = length name } };

    ghost use Rattle.sig_base.specs.Label.{fields_back};

    ghost inverse_ok = { λ a h. fields_back a h.1 };
}

impl Label {
    /// The label of these bytes; `None` where they break its rule.
    pub fn new(bytes: &[u8]) -> Option<Label>
        ensures exactly { IsSome result ↔ IsLabel bytes.now }
        ensures bytes { IfSome result (λ l. l ≡ bytes.now) }
    {
        if !is_label(bytes) {
            return None;
        }
        let mut padded = [0u8; 16];
        padded[..bytes.len()].copy_from_slice(bytes);
        Some(Label {
            bytes: padded,
            len: bytes.len(),
        })
    }

    /// The 1 to 16 bytes of the name.
    pub fn bytes(&self) -> &[u8]
        ensures value { result.now ≡ self.now }
        ensures label { IsLabel self.now }
    {
        &self.bytes[..self.len]
    }
}

impl PartialEq for Label {
    ghost eq = { bytes_eq };

    ghost laws = { Prim.search (comparing, rules) };

    fn eq(&self, other: &Label) -> bool {
        self.bytes() == other.bytes()
    }
}

impl Eq for Label {
    ghost laws = { Prim.search (comparing, rules) };
}

fn is_label(bytes: &[u8]) -> bool
    ensures { IsTrue result ↔ IsLabel bytes.now }
{
    !bytes.is_empty() && bytes.len() <= 16 && bytes.iter().all(|byte| is_label_byte(*byte))
}

fn is_label_byte(byte: u8) -> bool
    ensures { IsTrue result ↔ IsLabelByte byte }
{
    matches!(byte, b'A'..=b'Z' | b'a'..=b'z' | b'0'..=b'9' | b'_' | b'-')
}
