//! etcd as an engine of logs.

use crate::fault::PostFault;
use crate::link::{Link, Request};
use crate::login::{Login, token_of};
use crate::waiting::{Deadline, Waiting};
use share_engine::{Engine, EngineFault};
use std::alloc::{AllocError, Global};
use std::net::SocketAddr;

/// How many milliseconds an exchange takes at most.
const EXCHANGE: u64 = 2_000;

/// How many of them it takes to connect.
const CONNECT: u64 = 500;

/// Where transactions go.
const TRANSACTIONS: &str = "/v3/kv/txn";

/// Where logins go.
const LOGINS: &str = "/v3/auth/authenticate";

/// The statuses of an answer, and of one that asks for a login.
const ANSWERED: u16 = 200;

const UNKNOWN_USER: u16 = 401;

/// An address of etcd.
#[derive(Drop)]
struct Endpoint {
    address: SocketAddr,
    /// Its text.
    host: String,
}

/// etcd, at one of its addresses. If that one is silent, the next is asked. It records no
/// exchanges.
#[derive(Drop)]
pub struct EtcdEngine<'a> {
    rt: &'a HostRuntime,
    alloc: Global,
    endpoints: Vec<Endpoint>,
    /// Which of them is asked.
    at: usize,
    link: Option<Link>,
    waiting: Waiting,
    login: Option<Login>,
    /// The token of the last login, or nothing.
    token: Vec<u8>,
}

fn endpoint_of(alloc: Global, address: &SocketAddr) -> Result<Endpoint, AllocError> {
    Ok(Endpoint {
        address: *address,
        host: format!(in alloc; "{address}")?,
    })
}

impl<'a> EtcdEngine<'a> {
    /// Returns etcd at these addresses, with a login if its users need one. Nothing is sent. Fails
    /// with `Memory`, or with `Silent` if the system lets nothing be waited for.
    pub fn new(
        rt: &'a HostRuntime,
        alloc: Global,
        addresses: &[SocketAddr],
        login: Option<Login>,
    ) -> Result<EtcdEngine<'a>, EngineFault> {
        let mut endpoints = Vec::new(alloc);
        for address in addresses {
            let Ok(endpoint) = endpoint_of(alloc, address) else {
                return Err(EngineFault::Memory);
            };
            if endpoints.push(endpoint).is_err() {
                return Err(EngineFault::Memory);
            }
        }
        let waiting = match Waiting::new(rt, alloc) {
            Ok(Some(waiting)) => waiting,
            Ok(None) => return Err(EngineFault::Silent),
            Err(_) => return Err(EngineFault::Memory),
        };
        Ok(EtcdEngine {
            rt,
            alloc,
            endpoints,
            at: 0,
            link: None,
            waiting,
            login,
            token: Vec::new(alloc),
        })
    }

    /// Turns to the next address.
    fn turn(&mut self) {
        self.link = None;
        self.at = self.at.saturating_add(1);
        if self.at >= self.endpoints.len() {
            self.at = 0;
        }
    }

    /// Posts a request to the address that is asked now.
    fn post(
        &mut self,
        path: &str,
        body: &[u8],
        into: &mut Vec<u8>,
        until: Deadline,
    ) -> Result<u16, PostFault> {
        let Some(endpoint) = self.endpoints.get(self.at) else {
            return Err(PostFault::NotSent);
        };
        let mut link = match self.link.take() {
            Some(link) if link.is_idle() => link,
            _ => {
                let soon = until.within(self.rt, CONNECT);
                Link::connect(
                    self.rt,
                    self.alloc,
                    endpoint.address,
                    &mut self.waiting,
                    soon,
                )?
            }
        };
        let request = Request {
            path,
            host: endpoint.host.as_str(),
            token: self.token.as_slice(),
            body,
        };
        let status = link.post(self.rt, &request, into, &mut self.waiting, until)?;
        self.link = Some(link);
        Ok(status)
    }

    /// Posts a request to the first address, from the one that is asked now on, that takes it.
    fn post_to_any(
        &mut self,
        path: &str,
        body: &[u8],
        into: &mut Vec<u8>,
        until: Deadline,
    ) -> Result<u16, PostFault> {
        for _ in 0..self.endpoints.len() {
            match self.post(path, body, into, until) {
                Err(PostFault::NotSent) => self.turn(),
                other => return other,
            }
        }
        Err(PostFault::NotSent)
    }

    /// Logs in, if there is a login and no token.
    fn log_in(&mut self, until: Deadline) -> Result<(), PostFault> {
        let Some(login) = self.login.take() else {
            return Ok(());
        };
        let mut answer = Vec::new(self.alloc);
        let posted = if self.token.is_empty() {
            self.post_to_any(LOGINS, login.body.as_slice(), &mut answer, until)
        } else {
            Ok(0)
        };
        self.login = Some(login);
        if posted? == ANSWERED {
            self.token = token_of(self.alloc, answer.as_slice())?.unwrap_or(Vec::new(self.alloc));
        }
        Ok(())
    }

    /// Logs in if it is needed, and posts a transaction.
    fn transact(
        &mut self,
        body: &[u8],
        into: &mut Vec<u8>,
        until: Deadline,
    ) -> Result<u16, PostFault> {
        self.log_in(until)?;
        self.post_to_any(TRANSACTIONS, body, into, until)
    }
}

impl Engine for EtcdEngine<'_> {
    // After 2 seconds no answer is waited for.
    fn ask(&mut self, body: &[u8], into: &mut Vec<u8>) -> Result<(), EngineFault> {
        let until = Deadline::after(self.rt, EXCHANGE);
        let mut status = self.transact(body, into, until);
        if status == Ok(UNKNOWN_USER) {
            self.token.clear();
            status = self.transact(body, into, until);
        }
        match status {
            Ok(ANSWERED) => Ok(()),
            Ok(_) => {
                self.turn();
                Err(EngineFault::Silent)
            }
            Err(fault) => {
                self.turn();
                Err(EngineFault::from(fault))
            }
        }
    }
}
