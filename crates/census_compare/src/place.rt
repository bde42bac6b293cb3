//! Bytes of comma-separated values, one by one.
ghost use Rattle.std.specs.Prelude.{◌≡◌};
ghost use Rattle.census_compare.specs.Rows.{move_of, outside};

/// Where the next byte of a row is.
#[derive(Clone, Copy)]
pub enum Place {
    /// At the start of a cell.
    Start,
    /// In a cell without quotes.
    Plain,
    /// Between quotes.
    Quoted,
    /// After a quote that ends a cell or is the first of two.
    Closed,
    /// After a CR that ends a row.
    Return,
}

/// What a byte does.
#[derive(Clone, Copy)]
pub enum Move {
    /// It is one of the cell.
    Add(Place),
    /// It only comes before the next one.
    Pass(Place),
    /// It ends the cell.
    EndCell,
    /// It ends the row.
    EndRow,
    /// It is not allowed there.
    Break,
}

// What a byte does outside quotes, where each byte but separators does `other`.
fn outside(byte: u8, other: Move) -> Move
    ensures { result ≡ outside byte other }
{
    match byte {
        b',' => Move::EndCell,
        b'\n' => Move::EndRow,
        b'\r' => Move::Pass(Place::Return),
        _ => other,
    }
}

/// What a byte does at this place.
pub fn move_of(place: Place, byte: u8) -> Move
    ensures { result ≡ move_of place byte }
{
    match place {
        Place::Start if byte == b'"' => Move::Pass(Place::Quoted),
        Place::Start => outside(byte, Move::Add(Place::Plain)),
        Place::Plain if byte == b'"' => Move::Break,
        Place::Plain => outside(byte, Move::Add(Place::Plain)),
        Place::Quoted if byte == b'"' => Move::Pass(Place::Closed),
        Place::Quoted => Move::Add(Place::Quoted),
        Place::Closed if byte == b'"' => Move::Add(Place::Quoted),
        Place::Closed => outside(byte, Move::Break),
        Place::Return if byte == b'\n' => Move::EndRow,
        Place::Return => Move::Break,
    }
}
