//! Records as CSV: their kinds, by the first field of their rows.

/// The kinds of records.
#[derive(Clone, Copy, Debug, PartialEq, Eq)]
pub enum Kind {
    /// A delivery.
    Line,
    /// The last record of an item.
    ItemEnd,
    /// Where an item's figure starts anew.
    Reset,
    /// The last record of a lane.
    Close,
}

impl Kind {
    ghost use Rattle.std.specs.Prelude.{◌≡◌};
    ghost use Rattle.mrp_record_csv.specs.Grammar.{record_kind_of, record_fields_used};

    /// The kind that a first field names.
    pub(crate) fn of(word: &str) -> Option<Kind>
        ensures { result ≡ record_kind_of word.now }
    {
        if word == "line" {
            Some(Kind::Line)
        } else if word == "end" {
            Some(Kind::ItemEnd)
        } else if word == "reset" {
            Some(Kind::Reset)
        } else if word == "close" {
            Some(Kind::Close)
        } else {
            None
        }
    }

    /// How many of the six fields a record of this kind uses.
    pub(crate) fn used(self) -> usize
        ensures { result ≡ record_fields_used self }
    {
        match self {
            Kind::Line => 6,
            Kind::ItemEnd => 5,
            Kind::Reset => 4,
            Kind::Close => 2,
        }
    }
}
