//! A server with the seats of its connections.
ghost use Rattle.std.specs.Prelude.{◌≡◌, ◌≤◌, vec_len};
ghost use Rattle.mx_pool.specs.Connections.{IsServerAt};

use crate::seated::{Seated, Seating, Taken};
use mx_serve::{Outside, Server};
use std::alloc::Global;
use std::mem;
use std::sync::{Condvar, Mutex, Wait};

/// The seats that no connection has, and one whose connection wasn't begun.
#[derive(Drop)]
struct Free<N: Seating> {
    seats: Vec<Seated<N>>,
    left: Option<Taken<N>>,
}

/// A server with its seats, of a number that was fixed at the start.
#[derive(Drop)]
pub struct Pool<N: Seating, G: Outside> {
    server: Server<G>,
    free: Mutex<Free<N>>,
    freed: Condvar,
    ghost is: { ∥ IsServerAt N.service N.places server ∥₁ },
}

impl<N: Seating, G: Outside> Pool<N, G> {
    /// A server with these seats, all free.
    pub fn new(server: Server<G>, seats: Vec<Seated<N>>) -> Pool<N, G>
        requires { IsServerAt N.service N.places server }
        ensures { result.server ≡ server }
    {
        Pool {
            server,
            free: Mutex::new(Free { seats, left: None }),
            freed: Condvar::new(),
        }
    }

    /// The server.
    pub fn server(&self) -> &Server<G>
        ensures { result.now ≡ self.now.server }
    {
        &self.server
    }

    /// A free seat. Waits where none is free.
    pub fn take<R: Wait>(&self, rt: &R) -> Seated<N> {
        let mut free = self
            .freed
            .wait_while(rt, self.free.lock(rt), |free| free.seats.is_empty());
        free.seats.pop().unwrap()
    }

    /// Gives back a seat that was taken, and wakes who waits for it. Takes no memory: the list has room for it.
    pub fn give<R: Wait>(&self, rt: &R, seat: Seated<N>) {
        let mut free = self.free.lock(rt);
        let _ = free.seats.push(seat);
        self.freed.notify_one();
    }

    /// Gives back the seat of a connection that wasn't begun.
    pub fn leave<R: Wait>(&self, rt: &R, seat: Taken<N>) {
        let mut free = self.free.lock(rt);
        free.left = Some(seat);
        self.freed.notify_one();
    }

    /// The seat of a connection that wasn't begun. Waits until it is given back.
    pub fn take_left<R: Wait>(&self, rt: &R) -> Taken<N> {
        let mut free = self
            .freed
            .wait_while(rt, self.free.lock(rt), |free| free.left.is_none());
        free.left.take().unwrap()
    }

    /// All seats. Waits until so many are free.
    pub fn take_all<R: Wait>(&self, rt: &R, alloc: Global, count: u64) -> Vec<Seated<N>>
        ensures { count ≤ vec_len result }
    {
        let mut free = self.freed.wait_while(rt, self.free.lock(rt), |free| {
            (free.seats.len() as u64) < count
        });
        mem::replace(&mut free.seats, Vec::new(alloc))
    }
}
