//! Scripts of whole sessions.
ghost use Rattle.std.specs.Prelude.{◌≡◌};
ghost use Rattle.mgn_book.specs.BookViews.{opening};

use mgn_ids::SetName;
use mgn_script::{Plain, run_script};
use mgn_session::{Conversation, Counted, SessionFault, SetSource, SourceFault};
use mgn_setfile::read_set;
use std::alloc::Global;
use std::test::Fail;
use worked_sets::{flat, fut, neg, odd, one, two, win};

// Files of some worked sets, and faulty ones.
#[derive(Drop)]
struct Worked {
    alloc: Global,
}

// A set whose record of a contract ends after its fifth array value.
const CUT: &str = "\
H,1,CUT
G,AAA,25
G,BBB,0
M,AAA,1,1
M,AAA,2,2
M,BBB,1,1
K,AAA1,AAA,1,F,F,10000,0,0,0,-100,-100,100
";

// One whose contract lies in a month that its commodity lacks.
const MONTH: &str = "\
H,1,MONTH
G,AAA,25
G,BBB,0
M,AAA,1,1
M,AAA,2,2
M,BBB,1,1
K,AAA1,AAA,3,F,F,10000,0,0,0,-100,-100,100,100,-200,-200,200,200,-300,-300,300,300,-210,210
";

/// The text of such a file, by its name.
pub(crate) fn text_of(name: &[u8]) -> Option<&'static str> {
    let files = [
        ("ONE", one()),
        ("TWO", two()),
        ("FUT", fut()),
        ("ODD", odd()),
        ("FLAT", flat()),
        ("NEG", neg()),
        ("WIN", win()),
        ("BROKEN", "H,1,BROKEN\nG,AAA,0\nM,AAA,1,9\n"),
        ("CUT", CUT),
        ("MONTH", MONTH),
    ];
    for (of, text) in files {
        if of.as_bytes() == name {
            return Some(text);
        }
    }
    None
}

impl SetSource for Worked {
    ghost gives = { λ _ _ _ _. Unit {0} };

    fn fetch(&mut self, name: &SetName) -> Result<Vec<u8>, SourceFault> {
        let Some(text) = text_of(name.as_bytes()) else {
            return Err(SourceFault::Missing);
        };
        let mut bytes = Vec::new(self.alloc);
        bytes.extend_from_slice(text.as_bytes())?;
        Ok(bytes)
    }
}

/// How many lines of a session a book answered, and what it wrote.
pub(crate) fn answered(
    alloc: Global,
    plain: &mut Plain,
    session: &[u8],
) -> (Result<u64, SessionFault>, Vec<u8>)
    requires { plain.old.day ≡ opening }
{
    let reader = Counted::new(session);
    let writer = Counted::new(Vec::new(alloc));
    let mut talk = Conversation::new(alloc, reader, writer);
    let lines = run_script(alloc, &mut talk, plain, &mut Worked { alloc });
    let (_, writer) = talk.into_parts();
    (lines, writer.into_inner())
}

const SESSION: &[u8] =
    b"ORIGIN CUST GROSS\nOPEN A1 CUST\nPOST A1 CASH 1000\nTRADE A1 1 AAA1 2 0\nASK A1\n";

const ANSWERS: &[u8] = b"OK 1\nOK 2\nOK 3\nOK 4\nOK 5 600 600 1000 1000 400\n";

#[test]
fn a_script_is_answered_to_its_end(rt: HostRuntime) -> Result<(), Fail> {
    let set = read_set(rt.alloc(), fut().as_bytes())?;
    let mut plain = Plain::new(rt.alloc(), set)?;
    let (lines, taken) = answered(rt.alloc(), &mut plain, SESSION);
    assert!(rt; lines == Ok(5) && plain.len() == 5);
    assert!(rt; taken.as_slice() == ANSWERS);
    Ok(())
}

// Lines without a set stay out of the history; the set that comes into force doubles the requirement.
const SWITCHES: &[u8] =
    b"ORIGIN CUST GROSS\nOPEN A1 CUST\nPOST A1 CASH 1000\nTRADE A1 1 AAA1 2 0\nSWITCH NOPE\n\
SWITCH BROKEN\nSWITCH two\nSWITCH TWO\nASK A1\nEND\nSWITCH NOPE\nSWITCH ONE\n";

const SWITCHED: &[u8] =
    b"OK 1\nOK 2\nOK 3\nOK 4\nERR 40 NOSET\nERR 41 BADSET 3\nERR 10 SYNTAX\nOK 5 1 1\n\
OK 6 1200 1200 1000 1000 -200\nOK 7\nERR 40 NOSET\nERR 8 50 CLOSED\n";

#[test]
fn a_script_switches_sets(rt: HostRuntime) -> Result<(), Fail> {
    let set = read_set(rt.alloc(), one().as_bytes())?;
    let mut plain = Plain::new(rt.alloc(), set)?;
    let (lines, taken) = answered(rt.alloc(), &mut plain, SWITCHES);
    assert!(rt; lines == Ok(12) && plain.len() == 8);
    assert!(rt; taken.as_slice() == SWITCHED);
    Ok(())
}
