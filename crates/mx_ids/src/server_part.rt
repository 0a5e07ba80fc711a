ghost use Rattle.std.specs.Prelude.{◌≡◌};
ghost use Rattle.mx_ids.specs.Ids.{is_server_part};

/// Whether what follows an id's numbers is `:` and the server's name.
#[tactic(auto, unfolding(crate::specs::Ids::is_server_part))]
pub fn is_server_part(server: &[u8], rest: &[u8]) -> bool
    ensures { result ≡ is_server_part server.now rest.now }
{
    match rest {
        [colon, name @ ..] => *colon == b':' && name == server,
        [] => false,
    }
}
