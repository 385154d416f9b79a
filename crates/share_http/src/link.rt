//! A connection to etcd: a request, and its answer.

use crate::answer::{Incoming, Step};
use crate::fault::PostFault;
use crate::waiting::{Deadline, Waiting};
use http1::{BodySize, Client, Header, Limits};
use mio::net::TcpStream;
use std::alloc::Global;
use std::io::{ErrorKind, Read, Write};
use std::net::{Net, SocketAddr};
use std::time::Clock;

/// How many parts an answer is read in at most: heads, and pieces of its body.
const MOST_STEPS: u32 = 1 << 20;

/// How many bytes are received at once.
const PIECE: usize = 16_384;

/// A request: where it goes, and what it has.
#[derive(Clone, Copy)]
pub(crate) struct Request<'a> {
    /// The path, as /v3/kv/txn.
    pub(crate) path: &'a str,
    /// The address, as a header has it.
    pub(crate) host: &'a str,
    /// The token of a login, or nothing.
    pub(crate) token: &'a [u8],
    pub(crate) body: &'a [u8],
}

/// A connection.
#[derive(Drop)]
pub(crate) struct Link {
    stream: TcpStream,
    client: Client,
    incoming: Incoming,
}

/// Appends a request. Fails with `Memory`, or with `NotSent` if it can't be a request.
fn write_request(
    client: &mut Client,
    request: &Request<'_>,
    output: &mut Vec<u8>,
) -> Result<(), PostFault> {
    let size = BodySize::Known(request.body.len() as u64);
    let all = [
        Header {
            name: b"host",
            value: request.host.as_bytes(),
        },
        Header {
            name: b"content-type",
            value: b"application/json",
        },
        Header {
            name: b"authorization",
            value: request.token,
        },
    ];
    let count = if request.token.is_empty() { 2 } else { 3 };
    client.write_request(
        output,
        b"POST",
        request.path.as_bytes(),
        &all[..count],
        size,
    )?;
    client.write_data(output, request.body)?;
    Ok(client.write_end(output, &[])?)
}

impl Link {
    /// Connects to an address. Fails with `NotSent` if that isn't done in time, and with `Memory`.
    pub(crate) fn connect<R: Net + Clock>(
        rt: &R,
        alloc: Global,
        address: SocketAddr,
        waiting: &mut Waiting,
        until: Deadline,
    ) -> Result<Link, PostFault> {
        let Ok(mut stream) = TcpStream::connect(rt, address) else {
            return Err(PostFault::NotSent);
        };
        if waiting.add(&mut stream).is_err() {
            return Err(PostFault::NotSent);
        }
        let _set = stream.set_nodelay(true);
        for _ in 0..MOST_STEPS {
            if !waiting.wait(rt, until) {
                return Err(PostFault::NotSent);
            }
            match stream.take_error() {
                Ok(None) => {}
                Ok(Some(_)) | Err(_) => return Err(PostFault::NotSent),
            }
            if stream.peer_addr().is_ok() {
                return Ok(Link {
                    stream,
                    client: Client::new(Limits::default()),
                    incoming: Incoming::none(alloc),
                });
            }
        }
        Err(PostFault::NotSent)
    }

    /// Sends bytes. Fails with `NotSent` if none were sent, and with `Silent`.
    fn send<C: Clock>(
        &mut self,
        clock: &C,
        bytes: &[u8],
        waiting: &mut Waiting,
        until: Deadline,
    ) -> Result<(), PostFault> {
        let mut sent = 0;
        for _ in 0..MOST_STEPS {
            let left = bytes.get(sent..).unwrap_or(&[]);
            if left.is_empty() {
                return Ok(());
            }
            match self.stream.write(left) {
                Ok(count) if count > 0 => sent += count.min(left.len()),
                Err(error) if error.kind() == ErrorKind::Interrupted => {}
                Err(error) if error.kind() == ErrorKind::WouldBlock => {
                    if !waiting.wait(clock, until) {
                        return Err(PostFault::Silent);
                    }
                }
                _ if sent == 0 => return Err(PostFault::NotSent),
                _ => return Err(PostFault::Silent),
            }
        }
        Err(PostFault::Silent)
    }

    /// Receives bytes.
    fn receive<C: Clock>(
        &mut self,
        clock: &C,
        waiting: &mut Waiting,
        until: Deadline,
    ) -> Result<(), PostFault> {
        let mut piece = [0; PIECE];
        for _ in 0..MOST_STEPS {
            match self.stream.read(&mut piece) {
                Ok(0) => return Err(PostFault::Silent),
                Ok(count) => {
                    let came = piece.get(..count).unwrap_or(&[]);
                    return self.incoming.add(came).map_err(|_| PostFault::Silent);
                }
                Err(error) if error.kind() == ErrorKind::Interrupted => {}
                Err(error) if error.kind() == ErrorKind::WouldBlock => {
                    if !waiting.wait(clock, until) {
                        return Err(PostFault::Silent);
                    }
                }
                Err(_) => return Err(PostFault::Silent),
            }
        }
        Err(PostFault::Silent)
    }

    /// Reads the answer, puts its body into `into`, and returns its status.
    fn read_answer<C: Clock>(
        &mut self,
        clock: &C,
        into: &mut Vec<u8>,
        waiting: &mut Waiting,
        until: Deadline,
    ) -> Result<u16, PostFault> {
        let mut status = 0;
        for _ in 0..MOST_STEPS {
            match self.incoming.step(&mut self.client, &mut status, into)? {
                Step::Done => return Ok(status),
                Step::Read => {}
                Step::NeedMore => self.receive(clock, waiting, until)?,
            }
        }
        Err(PostFault::Silent)
    }

    /// Sends a request, puts the body of its answer into `into`, and returns the answer's status.
    pub(crate) fn post<C: Clock>(
        &mut self,
        clock: &C,
        request: &Request<'_>,
        into: &mut Vec<u8>,
        waiting: &mut Waiting,
        until: Deadline,
    ) -> Result<u16, PostFault> {
        into.clear();
        let mut output = Vec::new(*into.allocator());
        write_request(&mut self.client, request, &mut output)?;
        self.send(clock, &output, waiting, until)?;
        self.read_answer(clock, into, waiting, until)
    }

    /// Reports whether another request can be sent.
    pub(crate) fn is_idle(&self) -> bool {
        self.client.is_idle() && !self.client.is_closed()
    }
}
