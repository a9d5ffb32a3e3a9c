ghost use Rattle.std.specs.Prelude.{◌≡◌, ◌∷◌, ◌≤◌, ◌<◌};
ghost use Rattle.sample_junctions.specs.Parts.{two_digits};

use sig_base::Label;

/// A capital letter and the two digits of a number.
pub fn label(letter: u8, number: u32) -> Label
    requires low { 65 ≤ letter }
    requires high { letter ≤ 90 }
    requires number { number < 100 }
    ensures { result ≡ letter ∷ two_digits number }
{
    let tens = b'0' + (number / 10) as u8;
    let units = b'0' + (number % 10) as u8;
    let Some(label) = Label::new(&[letter, tens, units]) else {
        unreachable!()
    };
    label
}
