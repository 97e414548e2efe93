ghost use Rattle.std.specs.Prelude.{◌≡◌};

use mgn_book::Book;
use mgn_day::Shows;
use mgn_table::{Seen, TableName, Tokens};
use std::snapshot::Snapshot;

/// An image of the day up to an entry, which contracts see and which has no bytes.
pub trait Image: Shows {
    /// The image of a book and of the sets that its versions show. It takes no memory.
    fn of<J: TableName>(book: &Book, tokens: &Tokens<J>) -> Self
        ensures { Self.shown result ≡ record { sets = tokens.now; book = book.now } };
}

/// The image of a day that a program picks where it makes its slots.
#[derive(Drop)]
pub struct DayImage {
    book: Snapshot<Book>,
    row: Snapshot<Vec<Seen>>,
}

impl Shows for DayImage {
    ghost use Rattle.std.specs.Prelude.{map};

    ghost shown = { λ image. record { sets = map (λ seen. seen.value) image.row.value.items; book = image.book.value } };
}

impl Image for DayImage {
    fn of<J: TableName>(book: &Book, tokens: &Tokens<J>) -> DayImage {
        DayImage {
            book: Snapshot::of(book),
            row: Snapshot::of(tokens.row()),
        }
    }
}
