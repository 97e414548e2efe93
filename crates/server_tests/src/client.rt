//! Clients. What one waits for comes in ten seconds, or the test fails.

use std::io;
use std::io::{Read, Write};
use std::net::{Net, Shutdown, SocketAddr, TcpStream};
use std::process::Abort;
use std::time::Duration;

/// A client at this address.
pub fn connect<R: Net<Stream = TcpStream> + Abort>(rt: &R, address: SocketAddr) -> TcpStream {
    let Ok(stream) = TcpStream::connect(rt, address) else {
        panic!(rt; "no connection")
    };
    assert!(rt;
        stream
            .set_read_timeout(Some(Duration::from_secs(10)))
            .is_ok()
    );
    assert!(rt; stream.set_nodelay(true).is_ok());
    stream
}

/// Sends a text.
pub fn send<R: Abort>(rt: &R, mut stream: &TcpStream, text: &str) {
    assert!(rt; stream.write_all(text.as_bytes()).is_ok(), "to send {text}");
}

/// Reads as many bytes as the text has, which are to be the text.
pub fn expect<R: Abort>(rt: &R, mut stream: &TcpStream, text: &str) {
    let mut buf = [0; 64];
    assert!(rt; text.len() <= 64);
    let read = &mut buf[..text.len()];
    assert!(rt; stream.read_exact(read).is_ok(), "for {text}");
    assert!(rt; &*read == text.as_bytes(), "for {text}");
}

/// Sends a text and no more, and reads the replies to their end.
pub fn ask_last<R: Abort + Alloc>(rt: &R, stream: TcpStream, text: &str) -> String<R::A> {
    send(rt, &stream, text);
    assert!(rt; stream.shutdown(Shutdown::Write).is_ok());
    match io::read_to_string(rt.alloc(), stream) {
        Ok(text) => text,
        Err(_) => panic!(rt; "no end of the replies to {text}"),
    }
}
