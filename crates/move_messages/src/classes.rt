//! The classes that an order accepts.

ghost use Rattle.std.specs.Prelude.{◌≡◌, ◌<◌, [], ◌∷◌, ◌++◌, length, nat_eq};
ghost use Rattle.std.specs.Cmp.{partial_equiv_from_equiv};
ghost use Rattle.std.specs.Cmp.Lexicographic.{pointwise, lists_equiv, nat_list_eq_equiv};
ghost use Rattle.move_messages.specs.Classes.{max_classes, IsClassList, class_list};
ghost use Rattle.move_messages.specs.inner.PaddedClasses.{padded};

use crate::limits::MAX_CLASSES;
use rail_codes::ClassCode;
use std::marker::Model;

/// 1 to 8 wagon classes in their order; one may stand several times. A contract sees the list of
/// their texts.
#[derive(Clone, Copy)]
pub struct Classes {
    // the first class again behind those in use
    items: [ClassCode; MAX_CLASSES],
    used: u8,
}

impl Model for Classes {
    ghost use Rattle.std.specs.Prelude.{ℕ, List, length, take};
    ghost use Rattle.move_messages.specs.inner.PaddedClasses.{IsPadded, padded, length-take-used};

    ghost Value = { List (List ℕ) };

    ghost view = { λ c. take c.used c.items };

    ghost invariant = { λ c. IsPadded c.items c.used };

    ghost inverse = { λ classes. record { items = padded classes; used = length classes } };

    ghost inverse_ok = { λ c h i. record { items = h.3 i; used = length-take-used c.items c.used h i } };
}

impl Classes {
    /// These classes; `None` where they are not 1 to 8.
    pub fn from_slice(classes: &[ClassCode]) -> Option<Classes>
        ensures { result ≡ class_list classes.now }
    {
        if classes.is_empty() || MAX_CLASSES < classes.len() {
            return None;
        }
        Some(Classes {
            items: padded(classes),
            used: classes.len() as u8,
        })
    }

    /// One class.
    pub fn one(class: ClassCode) -> Classes
        ensures { result ≡ class ∷ [] }
    {
        Classes {
            items: [class; MAX_CLASSES],
            used: 1,
        }
    }

    /// Puts one more class behind the others, which are at most 7.
    pub fn push(&mut self, class: ClassCode)
        requires { length self.old < max_classes }
        ensures { self.new ≡ self.old ++ class ∷ [] }
    {
        self.items[usize::from(self.used)] = class;
        self.used += 1;
    }

    /// The classes in their order.
    pub fn as_slice(&self) -> &[ClassCode]
        ensures value { result.now ≡ self.now }
        ensures valid { IsClassList result.now }
    {
        &self.items[..usize::from(self.used)]
    }
}

impl PartialEq for Classes {
    ghost eq = { pointwise (pointwise nat_eq) };

    ghost laws = { partial_equiv_from_equiv (lists_equiv nat_list_eq_equiv) };

    fn eq(&self, other: &Self) -> bool {
        self.as_slice() == other.as_slice()
    }
}

impl Eq for Classes {
    ghost laws = { lists_equiv nat_list_eq_equiv };
}

/// The classes with the first one again behind them.
fn padded(classes: &[ClassCode]) -> [ClassCode; MAX_CLASSES]
    requires { IsClassList classes.now }
    ensures { result ≡ padded classes.now }
{
    let mut items = [classes[0]; MAX_CLASSES];
    items[..classes.len()].copy_from_slice(classes);
    items
}
