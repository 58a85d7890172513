//! A link over a WebSocket. Trusted edge: no contract says what a peer sends or receives.
ghost use Rattle.std.specs.Prelude.{◌≡◌, ◌≢◌, ◌≤◌, []};
ghost use Rattle.mix_outside.specs.Faults.{Rose};

use crate::hearing::{Heard, close, hear};
use mix_base::{NoMemory, Text};
use mix_outside::{Got, Link, Put};
use std::alloc::Global;
use std::io::{Read, Write};
use tungstenite::{CloseCode, Error, Message, NoMask, WebSocket};

/// A link over a WebSocket. It is idle where a read of the stream would wait, and tells no contents.
#[derive(Drop)]
pub struct SocketLink<S> {
    alloc: Global,
    socket: WebSocket<S, NoMask>,
    faults: u64,
    idles: u64,
}

impl<S: Read + Write + Drop> SocketLink<S> {
    /// A link over a socket whose handshake is done.
    pub fn new(alloc: Global, socket: WebSocket<S, NoMask>) -> SocketLink<S>
        ensures faults { result.faults ≡ 0 }
        ensures idles { result.idles ≡ 0 }
    {
        SocketLink {
            alloc,
            socket,
            faults: 0,
            idles: 0,
        }
    }
}

/// What was sent. A fault is counted.
fn put_of(answer: Result<(), Error>, faults: &mut u64) -> Result<Put, NoMemory>
    ensures later { faults.old ≤ faults.new }
    ensures cause { result ≡ Ok Put.Failed → Rose faults.old faults.new }
    ensures steady { result ≢ Ok Put.Failed → faults.new ≡ faults.old }
{
    match answer {
        Ok(()) => Ok(Put::Done),
        Err(Error::OutOfMemory) => Err(NoMemory),
        Err(_) => {
            *faults = faults.saturating_add(1);
            Ok(Put::Failed)
        }
    }
}

impl<S: Read + Write + Drop> Link for SocketLink<S> {
    ghost Tells = { ⊥ };

    ghost taken = { λ _. [] };

    ghost left = { λ _. [] };

    ghost sent = { λ _. [] };

    ghost faults = { λ link. link.faults };

    ghost idles = { λ link. link.idles };

    fn recv(&mut self) -> Result<Got, NoMemory> {
        match hear(self.alloc, &mut self.socket)? {
            Heard::Text(text) => Ok(Got::Text(text)),
            Heard::Binary(bytes) => Ok(Got::Binary(bytes)),
            Heard::Quiet => match self.idles.checked_add(1) {
                Some(idles) => {
                    self.idles = idles;
                    Ok(Got::Idle)
                }
                None => Ok(Got::End),
            },
            Heard::Over => Ok(Got::End),
            Heard::Broken => {
                self.faults = self.faults.saturating_add(1);
                Ok(Got::Failed)
            }
        }
    }

    fn send(&mut self, text: &Text) -> Result<Put, NoMemory> {
        let message = Message::text(self.alloc, text.as_str())?;
        let answer = self.socket.send(message);
        put_of(answer, &mut self.faults)
    }

    fn close(&mut self, code: u16) -> Result<Put, NoMemory> {
        let answer = close(&mut self.socket, CloseCode::from(code));
        put_of(answer, &mut self.faults)
    }
}
