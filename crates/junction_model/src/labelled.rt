ghost use Rattle.std.specs.Prelude.{ℕ, List, ◌≡◌, ◌≢◌, ◌↔◌, IsTrue, Any, AllPairs};

use crate::group::Group;
use flow_model::Lane;
use sig_base::Label;

/// What has a label of its own among its like.
pub trait Labelled {
    ghost label_of: { Self → List ℕ };

    fn label(&self) -> &Label
        ensures { result.now ≡ label_of self.now };
}

impl Labelled for Group {
    ghost label_of = { λ group. group.label };

    fn label(&self) -> &Label {
        &self.label
    }
}

impl Labelled for Lane {
    ghost label_of = { λ lane. lane.label };

    fn label(&self) -> &Label {
        &self.label
    }
}

fn has_label<T: Labelled>(items: &[T], label: &Label) -> bool
    ensures { IsTrue result ↔ Any (λ item. T.label_of item ≡ label.now) items.now }
{
    items.iter().any(|item| item.label() == label)
}

/// Whether no two items have one label.
pub fn are_distinct<T: Labelled>(items: &[T]) -> bool
    ensures { IsTrue result ↔ AllPairs (λ a b. T.label_of a ≢ T.label_of b) items.now }
{
    for j in 0..items.len() {
        if has_label(&items[..j], items[j].label()) {
            return false;
        }
    }
    true
}
