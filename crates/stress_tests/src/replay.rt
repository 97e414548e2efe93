//! All sessions' requests, merged by the places of their answers, and asked again of a book of one thread.

use crate::counts::Counts;
use crate::drawn::SEED;
use crate::text::{Rest, set_of};
use crate::told::Told;
use mgn_machine::Answer;
use mgn_script::Plain;
use mgn_session::Exec;
use mgn_wire::{Line, LineReply, read_line, reply_text};
use std::alloc::{AllocError, Global};
use std::process::Abort;
use std::test::Fail;

/// What is left of what a session asked and was answered.
#[derive(Clone, Copy)]
pub(crate) struct Track<'t> {
    places: &'t [u64],
    asked: Rest<'t>,
    told: Rest<'t>,
}

impl<'t> Track<'t> {
    fn new(asked: &'t str, told: &'t Told) -> Track<'t> {
        Track {
            places: told.places.as_slice(),
            asked: Rest(asked.as_bytes()),
            told: Rest(told.text.as_slice()),
        }
    }

    // Whether the next answer has this place.
    fn is_at(&self, place: u64) -> bool {
        self.places.first() == Some(&place)
    }

    // Takes the next request and its answer.
    fn take(&mut self) -> Option<(&'t [u8], &'t [u8])> {
        let (_, places) = self.places.split_first()?;
        self.places = places;
        let asked = self.asked.next_line()?;
        let told = self.told.next_line()?;
        Some((asked, told))
    }
}

/// What all sessions asked and were answered.
pub(crate) fn tracks<'t>(
    alloc: Global,
    asked: &'t [String],
    told: &'t [Told],
) -> Result<Vec<Track<'t>>, AllocError> {
    let mut tracks = Vec::new(alloc);
    for (asked, told) in asked.iter().zip(told.iter()) {
        tracks.push(Track::new(asked, told))?;
    }
    Ok(tracks)
}

// What a book answers to a line.
fn answer(alloc: Global, plain: &mut Plain, line: &Line) -> Option<Answer> {
    match line {
        Line::Do(command) => Some(plain.exec(command)),
        Line::Switch(name) => Some(plain.switch(set_of(alloc, name)?)),
    }
}

// Writes what a book answers to a line.
fn write_answer(
    alloc: Global,
    plain: &mut Plain,
    line: &[u8],
    counts: &mut Counts,
    out: &mut Vec<u8>,
) {
    let Ok(line) = read_line(line) else { return };
    let Some(answer) = answer(alloc, plain, &line) else {
        return;
    };
    counts.add(&line, &answer.reply);
    let _ = reply_text(&LineReply::Answered(answer), out);
}

// The next request and answer of the session whose next answer has this place.
fn take_at<'t>(tracks: &mut [Track<'t>], place: u64) -> Option<(&'t [u8], &'t [u8])> {
    let track = tracks.iter_mut().find(|track| track.is_at(place))?;
    track.take()
}

/// Asks a book the requests at the places 1 to an end, in order, and looks at each reply.
pub(crate) fn check(
    rt: &impl Abort,
    alloc: Global,
    plain: &mut Plain,
    tracks: &mut [Track<'_>],
    end: u64,
) -> Result<Counts, Fail> {
    let mut counts = Counts::default();
    let mut text = Vec::with_capacity(alloc, 256)?;
    for place in 1..=end {
        let Some((asked, told)) = take_at(tracks, place) else {
            panic!(rt; "no session was answered at place {place}, seed {SEED}")
        };
        text.clear();
        write_answer(alloc, plain, asked, &mut counts, &mut text);
        let replayed = Rest(text.as_slice()).next_line();
        assert!(rt; replayed == Some(told), "at place {place}, seed {SEED}");
    }
    Ok(counts)
}
