//! What is known of the least value that a variable may still have.
ghost use Rattle.std.specs.Prelude.{◌≡◌};
ghost use Rattle.elan_look.specs.Lows as spec;

use elan_table::{Name, Table, TermRef};

/// A bound.
#[derive(Drop)]
pub enum Low<N: Name> {
    /// No value is left.
    Empty,
    /// Nothing is known.
    Any,
    /// No value before this one is left.
    At(TermRef<N>),
}

impl<N: Name> Low<N> {
    /// Whether no value is left.
    pub fn is_empty(&self) -> bool
        ensures { result ≡ spec.is_empty self.now }
    {
        match self {
            Low::Empty => true,
            Low::Any => false,
            Low::At(_) => false,
        }
    }

    /// Where both bounds hold.
    pub(crate) fn meet(self, table: &Table<N>, other: Low<N>) -> Low<N>
        ensures { result ≡ spec.meet self other }
    {
        match self {
            Low::Empty => Low::Empty,
            Low::Any => other,
            Low::At(a) => match other {
                Low::Empty => Low::Empty,
                Low::Any => Low::At(a),
                Low::At(b) => {
                    if table.compare(&a, &b).is_lt() {
                        Low::At(b)
                    } else {
                        Low::At(a)
                    }
                }
            },
        }
    }

    /// Where one of the bounds holds.
    pub(crate) fn join(self, table: &Table<N>, other: Low<N>) -> Low<N>
        ensures { result ≡ spec.join self other }
    {
        match self {
            Low::Empty => other,
            Low::Any => Low::Any,
            Low::At(a) => match other {
                Low::Empty => Low::At(a),
                Low::Any => Low::Any,
                Low::At(b) => {
                    if table.compare(&a, &b).is_lt() {
                        Low::At(a)
                    } else {
                        Low::At(b)
                    }
                }
            },
        }
    }
}
