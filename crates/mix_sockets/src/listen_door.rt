//! A door that listens. Trusted edge: no contract says who comes.
ghost use Rattle.std.specs.Prelude.{◌≡◌, [], false};

use crate::SocketLink;
use crate::greeting::greet;
use crate::hearing::is_wait;
use mix_base::{Bytes32, NoMemory};
use mix_outside::{Came, Door};
use std::alloc::Global;
use std::io;
use std::net::{Net, TcpListener, TcpStream};
use std::random::RandomSource;
use std::time::{Clock, Duration};

/// How many milliseconds a door waits where nobody came.
const NOBODY: u64 = 5;

/// Listens on a port of this machine. Doors share a listener by its clones.
pub fn listen<R: Net<Listener = TcpListener, Stream = TcpStream>>(
    rt: &R,
    port: u16,
) -> io::Result<TcpListener> {
    let listener = TcpListener::bind(rt, ("127.0.0.1", port))?;
    listener.set_nonblocking(true)?;
    Ok(listener)
}

/// A door on a listener that doesn't block. A peer whose handshake isn't done is no link.
#[derive(Drop)]
pub struct ListenDoor<R> {
    rt: R,
    alloc: Global,
    listener: TcpListener,
    faults: u64,
    idles: u64,
}

impl<R> ListenDoor<R> {
    pub fn new(alloc: Global, rt: R, listener: TcpListener) -> ListenDoor<R>
        ensures faults { result.faults ≡ 0 }
        ensures idles { result.idles ≡ 0 }
    {
        ListenDoor {
            rt,
            alloc,
            listener,
            faults: 0,
            idles: 0,
        }
    }
}

/// Who stands at a door.
#[derive(Drop)]
enum Visitor {
    Link {
        link: SocketLink<TcpStream>,
        challenge: Bytes32,
    },
    Nobody,
    Fault,
}

impl<R: Clock + RandomSource> ListenDoor<R> {
    /// Who stands at the door.
    fn look(&self) -> Visitor {
        let stream = match self.listener.accept() {
            Ok((stream, _)) => stream,
            Err(error) => {
                if !is_wait(error.kind()) {
                    return Visitor::Fault;
                }
                self.rt.sleep(Duration::from_millis(NOBODY));
                return Visitor::Nobody;
            }
        };
        let mut challenge = [0; 32];
        if self.rt.fill_bytes(&mut challenge).is_err() {
            return Visitor::Fault;
        }
        match greet(self.alloc, stream) {
            Some(socket) => Visitor::Link {
                link: SocketLink::new(self.alloc, socket),
                challenge: Bytes32(challenge),
            },
            None => Visitor::Nobody,
        }
    }
}

impl<R: Clock + RandomSource> Door for ListenDoor<R> {
    type L = SocketLink<TcpStream>;

    ghost Tells = { ⊥ };

    ghost left = { λ _. [] };

    ghost ended = { λ _. false };

    ghost faults = { λ door. door.faults };

    ghost idles = { λ door. door.idles };

    fn next(&mut self) -> Result<Came<SocketLink<TcpStream>>, NoMemory> {
        match self.look() {
            Visitor::Link { link, challenge } => Ok(Came::Link { link, challenge }),
            Visitor::Nobody => match self.idles.checked_add(1) {
                Some(idles) => {
                    self.idles = idles;
                    Ok(Came::Idle)
                }
                None => Ok(Came::End),
            },
            Visitor::Fault => {
                self.faults = self.faults.saturating_add(1);
                Ok(Came::Failed)
            }
        }
    }
}
