//! The seats of a server, made at its start and gathered at its end.
ghost use Rattle.std.specs.Prelude.{◌≡◌, ◌≤◌, ◌+◌, OnOk, vec_len};
ghost use Rattle.mx_pool.specs.Connections.{HaveServed, IsServerAt};
ghost use Rattle.mx_fold.specs.Lists.{Grows};
ghost use Rattle.mx_serve.specs.OfEngine.Shown.{Ties, stores_of};

use crate::pool::Pool;
use crate::seated::{Seated, Seating};
use mx_ids::Memory;
use mx_serve::{EnginePass, Outside, Server};
use std::alloc::Global;
use std::sync::ledger::Share;

/// So many seats of a server, whose passes have seen what `pass` has.
pub fn make_seats<N: Seating, G: Outside>(
    alloc: Global,
    server: &Server<G>,
    pass: &mut EnginePass,
    share: &mut Share<N>,
    count: u64,
) -> Result<Vec<Seated<N>>, Memory>
    requires server { IsServerAt N.service N.places server.now }
    requires ties { Ties server.now.engine pass.old }
    requires parts { share.old.parts ≡ count }
    requires amount { share.old.amount ≡ 0 }
    ensures ties { Ties server.now.engine pass.new }
    ensures same { stores_of pass.new ≡ stores_of pass.old }
    ensures parts { OnOk result (share.new.parts ≡ 0) }
    ensures amount { share.new.amount ≡ 0 }
{
    let mut seats = Vec::new(alloc);
    'seats: for _seat in 0..count {
        seats.push(make_seat(alloc, server, pass, share)?)?;
    }
    Ok(seats)
}

/// A seat of a server, whose pass has seen what `pass` has.
fn make_seat<N: Seating, G: Outside>(
    alloc: Global,
    server: &Server<G>,
    pass: &mut EnginePass,
    share: &mut Share<N>,
) -> Result<Seated<N>, Memory>
    requires server { IsServerAt N.service N.places server.now }
    requires ties { Ties server.now.engine pass.old }
    requires parts { 1 ≤ share.old.parts }
    requires amount { share.old.amount ≡ 0 }
    ensures ties { Ties server.now.engine pass.new }
    ensures same { stores_of pass.new ≡ stores_of pass.old }
    ensures parts { OnOk result (share.new.parts + 1 ≡ share.old.parts) }
    ensures amount { share.new.amount ≡ 0 }
{
    let theirs = server.engine().pass(alloc, pass)?;
    let part = share.split_off(1, 0);
    Ok(Seated::new(theirs, part))
}

/// Lets `pass` see what those of these seats have seen, and takes their parts of the ledger.
pub fn gather<N: Seating, G: Outside>(
    pool: &Pool<N, G>,
    seats: Vec<Seated<N>>,
    pass: &mut EnginePass,
    share: &mut Share<N>,
)
    requires ties { Ties pool.now.server.engine pass.old }
    requires parts { share.old.parts ≡ 0 }
    requires amount { share.old.amount ≡ 0 }
    ensures ties { Ties pool.now.server.engine pass.new }
    ensures own { Grows (stores_of pass.old) (stores_of pass.new) }
    ensures parts { share.new.parts ≡ vec_len seats }
    ensures within { share.new.parts ≤ N.parts }
    ensures served { ∥ HaveServed N.service N.is_kind (stores_of pass.new) share.new.amount ∥₁ }
{
    let mut rest = seats;
    'seats: while let Some(seat) = rest.pop() {
        let Seated {
            pass: theirs,
            share: part,
        } = seat;
        pool.server().engine().meet(pass, theirs);
        share.merge(part);
    }
}
