//! Space that is made before it is needed.

ghost use Rattle.std.specs.Prelude.{◌≡◌, ◌≤◌, ◌*◌, length};
ghost use Rattle.mx_lanes.specs.Space.{total};

/// How many items all lanes have space for.
pub fn total_spare(spares: &[u16]) -> usize
    requires { length spares.now ≤ 255 }
    ensures total { result ≡ total spares.now }
    ensures bound { result ≤ 255 * 65535 }
{
    let mut sum = 0;
    'lanes: for spare in spares {
        sum += usize::from(*spare);
    }
    sum
}
