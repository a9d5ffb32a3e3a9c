ghost use Rattle.std.specs.Prelude.{◌≡◌, ◌↔◌, IsTrue, IsSome, IfSome};
ghost use Rattle.std.specs.Str.{bytes_eq};
ghost use Rattle.std.specs.Cmp.Rules.{comparing};
ghost use Rattle.std.proofs.Common.{rules};
ghost use Rattle.sig_base.specs.Text.{IsTitle};

use std::marker::Model;

/// The name of a junction: 1 to 60 bytes, each printable ASCII, the blank among them (32 to 126).
/// Contracts see a title as the list of its bytes.
#[derive(Clone, Copy, Debug)]
pub struct Title {
    bytes: [u8; 60],
    len: usize,
}

impl Model for Title {
    ghost use Rattle.std.specs.Prelude.{ℕ, List, take, length};
    ghost use Rattle.sig_base.specs.Text.{IsTitle};
    ghost use Rattle.sig_base.specs.Padding.{IsPadded, padded_to};

    ghost Value = { List ℕ };

    ghost view = { λ l. take l.len l.bytes };

    ghost invariant = { λ l. IsTitle (take l.len l.bytes) × IsPadded 60 l.bytes l.len };

    ghost inverse = { λ name. record { bytes = padded_to 60 name; len = length name } };

    ghost use Rattle.sig_base.specs.Title.{fields_back};

    ghost inverse_ok = { λ a h. fields_back a h.1 };
}

impl Title {
    /// The title of these bytes; `None` where they break its rule.
    pub fn new(bytes: &[u8]) -> Option<Title>
        ensures exactly { IsSome result ↔ IsTitle bytes.now }
        ensures bytes { IfSome result (λ l. l ≡ bytes.now) }
    {
        if !is_title(bytes) {
            return None;
        }
        let mut padded = [0u8; 60];
        padded[..bytes.len()].copy_from_slice(bytes);
        Some(Title {
            bytes: padded,
            len: bytes.len(),
        })
    }

    /// The 1 to 60 bytes of the name.
    pub fn bytes(&self) -> &[u8]
        ensures value { result.now ≡ self.now }
        ensures title { IsTitle self.now }
    {
        &self.bytes[..self.len]
    }
}

impl PartialEq for Title {
    ghost eq = { bytes_eq };

    ghost laws = { Prim.search (comparing, rules) };

    fn eq(&self, other: &Title) -> bool {
        self.bytes() == other.bytes()
    }
}

impl Eq for Title {
    ghost laws = { Prim.search (comparing, rules) };
}

fn is_title(bytes: &[u8]) -> bool
    ensures { IsTrue result ↔ IsTitle bytes.now }
{
    !bytes.is_empty() && bytes.len() <= 60 && bytes.iter().all(|byte| (32..=126).contains(byte))
}
