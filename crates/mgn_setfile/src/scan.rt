//! Where the bytes of a line leave a reader of csv: what tells whether one reader may go on to the next line.

ghost use Rattle.std.specs.Prelude.{◌≡◌, ◌∷◌, [], List, ℕ};
ghost use Rattle.std.specs.List.{list_all};
ghost use Rattle.std.specs.Str.Lines.{strip_carriage_return};
ghost use Rattle.csv.specs.Machine.{in_field, start_field};
ghost use Rattle.csv.specs.Reading.{default_config};
ghost use Rattle.csv.specs.declared.parser.State.TheVariants as st;
ghost use Rattle.mgn_setfile.specs.Plain.{is_bare_byte, shape, shape_after, shape_from};

/// How a line ends.
#[derive(Clone, Copy, PartialEq, Eq, Debug)]
pub(crate) enum Shape {
    /// With its one record, or with none.
    Closed,
    /// Within quotes, which an end of line does not end.
    Open,
    /// With a second record, which a carriage return begins.
    Second,
}

// Where a byte of a line stands.
#[derive(Clone, Copy, PartialEq, Eq, Debug)]
enum LinePart {
    // Before the record.
    Before,
    // At the start of a field.
    Start,
    // In a field without quotes, or after its quotes.
    Field,
    // Within quotes.
    Quoted,
    // After a quote that ends them, if no other follows.
    Quote,
    // After the record.
    After,
    // In a second record.
    Second,
}

// After a byte of a field that is not within quotes.
fn after_field(byte: u8) -> LinePart
    ensures { (bs : List ℕ) → shape_from result bs ≡ shape_after (in_field default_config byte) bs }
{
    match byte {
        b',' => LinePart::Start,
        b'\r' | b'\n' => LinePart::After,
        _ => LinePart::Field,
    }
}

// After the first byte of a field.
fn after_start(byte: u8) -> LinePart
    ensures { (bs : List ℕ) → shape_from result bs ≡ shape_after (start_field default_config byte) bs }
{
    match byte {
        b'"' => LinePart::Quoted,
        _ => after_field(byte),
    }
}

impl LinePart {
    ghost use Rattle.std.specs.Prelude.{◌≡◌, ◌∷◌, [], List, ℕ};
    ghost use Rattle.mgn_setfile.specs.Plain.{shape_from};

    // After one byte more.
    fn after(self, byte: u8) -> LinePart
        ensures { (bs : List ℕ) → shape_from result bs ≡ shape_from self (byte ∷ bs) }
    {
        match (self, byte) {
            (LinePart::Before, b'\r' | b'\n') => LinePart::Before,
            (LinePart::Before | LinePart::Start, _) => after_start(byte),
            (LinePart::Quoted, b'"') => LinePart::Quote,
            (LinePart::Quoted, _) | (LinePart::Quote, b'"') => LinePart::Quoted,
            (LinePart::Field | LinePart::Quote, _) => after_field(byte),
            (LinePart::After, b'\r') => LinePart::After,
            (LinePart::After | LinePart::Second, _) => LinePart::Second,
        }
    }

    // How the line ends, if it ends here.
    fn shape(self) -> Shape
        ensures { result ≡ shape_from self [] }
    {
        match self {
            LinePart::Quoted => Shape::Open,
            LinePart::Second => Shape::Second,
            _ => Shape::Closed,
        }
    }
}

// Whether a byte is no quote and of no end of line. Without those a line has one record or none.
fn is_bare_byte(byte: u8) -> bool
    ensures { result ≡ is_bare_byte byte }
{
    byte != b'"' && byte != b'\r' && byte != b'\n'
}

// A line without the carriage return at its end.
fn without_return(line: &[u8]) -> &[u8]
    ensures { result.now ≡ strip_carriage_return line.now }
{
    match line {
        [inside @ .., b'\r'] => inside,
        _ => line,
    }
}

// Whether a line has bare bytes alone before the carriage return at its end, as most lines do.
fn is_bare(line: &[u8]) -> bool
    ensures { result ≡ list_all is_bare_byte (strip_carriage_return line.now) }
{
    without_return(line).iter().all(|byte| is_bare_byte(*byte))
}

// How a line ends, byte by byte.
fn scan(line: &[u8]) -> Shape
    ensures { result ≡ shape st.StartRecord line.now }
{
    let mut place = LinePart::Before;
    for byte in line {
        place = place.after(*byte);
    }
    place.shape()
}

// How a line ends.
pub(crate) fn shape_of(line: &[u8]) -> Shape
    ensures { result ≡ shape st.StartRecord line.now }
{
    if is_bare(line) {
        Shape::Closed
    } else {
        scan(line)
    }
}
