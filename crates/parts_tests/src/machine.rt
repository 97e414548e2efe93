//! An answer without an entry.

use mgn_machine::{Answer, Refusal, Reply};

#[test]
fn a_refusal_has_no_place(rt: HostRuntime) {
    let full = Answer::refused(Refusal::Full);
    assert!(rt; full.place.is_none());
    assert!(rt; matches!(&full.reply, Reply::Refused(Refusal::Full)));
}
