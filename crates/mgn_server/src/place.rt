ghost use Rattle.std.specs.Prelude.{◌≡◌, ◌≤◌, [], vec_len, vec_capacity};
ghost use Rattle.std.specs.List.{AllZip};
ghost use Rattle.mgn_session.specs.Session.{Answers, Calls};
ghost use Rattle.mgn_server.specs.Places.{GivesBack};

use crate::session::ServedFrom;
use mgn_session::{Exec, SetSource};
use std::thread::{PromisedHandle, Threads};

// Where a seat is.
#[derive(Drop)]
pub enum Place<E: Exec, S: SetSource> {
    // With the thread of its session.
    Taken(PromisedHandle<(E, S), ServedFrom<E, S>>),
    // Here: no connection came, or no thread could be had for it.
    Free((E, S)),
}

impl<E: Exec + Drop, S: SetSource + Drop> Place<E, S> {
    // Waits until the session has ended, if there is one, and gives the executor.
    fn end<R: Threads>(self, rt: &R) -> E
        ensures { GivesBack (Answers (Calls E.entries E.is_full E.is_broken E.does) S.gives) self result }
    {
        let (exec, _) = match self {
            Place::Taken(handle) => handle.join(rt),
            Place::Free(seat) => seat,
        };
        exec
    }
}

// Waits until all sessions have ended, and gives the executors in order.
pub fn end_all<R: Threads, E: Exec + Drop, S: SetSource + Drop>(
    rt: &R,
    places: Vec<Place<E, S>>,
    mut executors: Vec<E>,
) -> Vec<E>
    requires empty { executors.items ≡ [] }
    requires room { vec_len places ≤ vec_capacity executors }
    ensures { AllZip (GivesBack (Answers (Calls E.entries E.is_full E.is_broken E.does) S.gives))
        places.items result.items }
{
    for place in places {
        executors.push_reserved(place.end(rt));
    }
    executors
}
