//! What commands and rules name of a key's data: a datum, or an element of an array; events, rows and fetches have one.
ghost use Rattle.std.specs.Prelude.{◌≡◌};
ghost use Rattle.stored_data.specs.Fields.{plain, same_field, stand_in};

use crate::Datum;

/// A datum, or an element of an array. The index of what is no array is 0.
#[derive(Clone, Copy, Debug, PartialEq, Eq)]
pub struct Field {
    pub datum: Datum,
    pub index: u32,
}

impl Field {
    ghost use Rattle.std.specs.Prelude.{◌≡◌};
    ghost use Rattle.stored_data.specs.Fields.{plain, same_field};

    /// The only field of a datum that is no array, or the first element of an array.
    pub fn plain(datum: Datum) -> Field
        ensures { result ≡ plain datum }
    {
        Field { datum, index: 0 }
    }

    /// Whether they are one field.
    pub fn is(self, other: Field) -> bool
        ensures { result ≡ same_field self other }
    {
        self.datum.place() == other.datum.place() && self.index == other.index
    }
}

impl Datum {
    ghost use Rattle.std.specs.Prelude.{◌≡◌};
    ghost use Rattle.stored_data.specs.Fields.{stand_in};

    /// The element of an array that acts and fetches of a counter or tag mean where the array is stored
    /// in its place.
    pub fn stand_in(self) -> Option<Field>
        ensures { result ≡ stand_in self }
    {
        match self {
            Datum::Gpt0 => Some(Field {
                datum: Datum::Gpt,
                index: 0,
            }),
            Datum::Gpc0 => Some(Field {
                datum: Datum::Gpc,
                index: 0,
            }),
            Datum::Gpc1 => Some(Field {
                datum: Datum::Gpc,
                index: 1,
            }),
            _ => None,
        }
    }
}
