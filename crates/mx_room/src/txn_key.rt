//! Transactions as keys.
ghost use Rattle.std.specs.Prelude.{◌≡◌};
ghost use Rattle.mx_room.specs.Ranks.{id_rank, with_digit};

use mx_event::Txn;
use mx_ids::Text;
use std::cmp::Ordering;

/// How many bytes of an id its rank is made of.
const RANKED: usize = 8;

/// A transaction as a key of a map, with a rank of its id, by which most keys differ. Ids that a client counts have ranks beside each
/// other, so that what was looked up last lies where the next look-up goes.
#[derive(Drop)]
pub(crate) struct TxnKey {
    pub(crate) rank: u64,
    pub(crate) txn: Txn,
    ghost ranked: { rank ≡ id_rank txn.id },
}

impl PartialEq for TxnKey {
    ghost use Rattle.std.specs.Cmp.{eq_by_cmp_equiv, partial_equiv_from_equiv};
    ghost use Rattle.std.specs.Ordering.{eq_by_cmp};
    ghost use Rattle.mx_room.specs.Keys.{key_cmp, key_total};

    ghost eq = { eq_by_cmp key_cmp };

    ghost laws = { partial_equiv_from_equiv (eq_by_cmp_equiv key_total) };

    fn eq(&self, other: &TxnKey) -> bool {
        self.cmp(other).is_eq()
    }
}

impl Eq for TxnKey {
    ghost use Rattle.std.specs.Cmp.{eq_by_cmp_equiv};
    ghost use Rattle.mx_room.specs.Keys.{key_total};

    ghost laws = { eq_by_cmp_equiv key_total };
}

impl PartialOrd for TxnKey {
    ghost use Rattle.std.specs.Cmp.{partial_order_from_total};
    ghost use Rattle.std.specs.Ordering.{as_partial_cmp};
    ghost use Rattle.mx_room.specs.Keys.{key_cmp, key_total};

    ghost partial_cmp = { as_partial_cmp key_cmp };

    ghost laws = { partial_order_from_total key_total };

    fn partial_cmp(&self, other: &TxnKey) -> Option<Ordering> {
        Some(self.cmp(other))
    }
}

/// By the rank of the id, then by device, by id and by path. Ids with one rank, as those that end alike, are told apart as any texts are.
impl Ord for TxnKey {
    ghost use Rattle.std.specs.Prelude.{refl};
    ghost use Rattle.mx_room.specs.Keys.{key_cmp, key_total};

    ghost cmp = { key_cmp };

    ghost total = { key_total };

    ghost matches_partial_cmp = { λ x y. refl };

    ghost matches_eq = { λ x y. refl };

    fn cmp(&self, other: &TxnKey) -> Ordering {
        let (own, its) = (&self.txn, &other.txn);
        self.rank
            .cmp(&other.rank)
            .then_with(|| own.device.cmp(&its.device))
            .then_with(|| own.id.cmp(&its.id))
            .then_with(|| own.path.as_slice().cmp(&its.path.as_slice()))
    }
}

/// The rank of a transaction's id: the number whose digits in base 256 are its last eight bytes.
pub(crate) fn id_rank(id: &Text) -> u64
    ensures { result ≡ id_rank id.now }
{
    let bytes = id.as_str().as_bytes();
    let last = &bytes[bytes.len().saturating_sub(RANKED)..];
    let mut rank = 0u64;
    'bytes: for byte in last {
        rank = with_digit(rank, *byte);
    }
    rank
}

fn with_digit(rank: u64, digit: u8) -> u64
    ensures { result ≡ with_digit rank digit }
{
    rank.wrapping_mul(256).wrapping_add(u64::from(digit))
}
