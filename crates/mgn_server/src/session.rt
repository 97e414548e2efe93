ghost use Rattle.std.specs.Prelude.{◌≡◌, MatchResult};
ghost use Rattle.mgn_session.specs.Session.{Answers, Calls};
ghost use Rattle.mgn_server.specs.Served.{Closes, Ends, HasServed};

use crate::report::{ConnectionFault, FaultReport};
use mgn_session::{Conversation, Counted, Exec, SessionFault, SetSource, run_lines};
use std::alloc::Global;
use std::net::TcpStream;
use std::snapshot::Snapshot;
use std::sync::{Mutex, Wait};
use std::thread::Promise;

// Answers the lines of a connection.
fn answer<E: Exec, S: SetSource>(
    alloc: Global,
    stream: &TcpStream,
    exec: &mut E,
    source: &mut S,
) -> Result<u64, SessionFault>
    ensures { Ends (Answers (Calls E.entries E.is_full E.is_broken E.does) S.gives)
        (exec.old, source.old) (exec.new, source.new) result }
{
    // The replies to all lines read go out by one write, so none is to wait for another. It works without, only slower.
    let _ = stream.set_nodelay(true);
    let mut talk = Conversation::new(alloc, Counted::new(stream), Counted::new(stream));
    run_lines(alloc, &mut talk, exec, source)
}

// Answers the lines of a connection and closes it. There is none where no thread could be had.
fn converse<E: Exec, S: SetSource>(
    alloc: Global,
    connection: Option<TcpStream>,
    exec: &mut E,
    source: &mut S,
) -> Result<u64, ConnectionFault>
    ensures { Closes (Answers (Calls E.entries E.is_full E.is_broken E.does) S.gives)
        (exec.old, source.old) (exec.new, source.new) result }
{
    let Some(stream) = connection else {
        return Err(ConnectionFault::NoThread);
    };
    Ok(answer(alloc, &stream, exec, source)?)
}

// Tells the fault of a connection, if it was closed by one.
fn report<F: FaultReport>(faults: &mut F, number: usize, ended: Result<u64, ConnectionFault>)
    ensures { MatchResult ended (λ _. faults.new ≡ faults.old) (λ fault. F.tells faults.old number fault faults.new) }
{
    if let Err(fault) = ended {
        faults.tell(number, fault);
    }
}

// What is promised of the seat that comes back from a session: it is the one that went in, but for what the lines of some
// input asked for.
#[derive(Drop)]
pub struct ServedFrom<E, S>(pub Snapshot<(E, S)>);

impl<E: Exec, S: SetSource> Promise<(E, S)> for ServedFrom<E, S> {
    ghost use Rattle.mgn_session.specs.Session.{Answers, Calls};
    ghost use Rattle.mgn_server.specs.Served.{HasServed};

    ghost kept_by = { λ promise seat. HasServed (Answers (Calls E.entries E.is_full E.is_broken E.does) S.gives)
        promise.0.value seat };
}

// What a thread needs for a session. The connection does not go with it: so where no thread can be had the server takes the
// connection away, and has its seat back.
#[derive(Drop)]
pub struct Session<'a, 'b, 'c, R, E, S, F> {
    pub rt: &'a R,
    pub alloc: Global,
    pub seat: (E, S),
    pub connection: &'b Mutex<Option<TcpStream>>,
    pub faults: &'c Mutex<F>,
    pub number: usize,
}

impl<R: Wait, E: Exec, S: SetSource, F: FaultReport> Session<'_, '_, '_, R, E, S, F> {
    // Answers the connection and closes it, tells the fault if there was one, and gives the seat back.
    pub fn run(self) -> (E, S)
        ensures { HasServed (Answers (Calls E.entries E.is_full E.is_broken E.does) S.gives) self.entry.seat result }
    {
        let Session {
            rt,
            alloc,
            seat,
            connection,
            faults,
            number,
        } = self;
        let (mut exec, mut source) = seat;
        let connection = connection.lock(rt).take();
        let ended = converse(alloc, connection, &mut exec, &mut source);
        report(&mut *faults.lock(rt), number, ended);
        (exec, source)
    }
}
