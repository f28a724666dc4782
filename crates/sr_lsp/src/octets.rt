//! System ids in octets.

ghost use Rattle.std.specs.Prelude.{◌≡◌, ◌+◌, ◌≤◌, length};
ghost use Rattle.sr_wire.specs.Octets.{number};

use sr_model::SystemId;
use sr_wire::octets::u48_at;

/// The system id at a place.
pub(crate) fn system_id_at(octets: &[u8], at: usize) -> SystemId
    requires { at + 6 ≤ length octets.now }
    ensures { result ≡ number octets.now at 6 }
{
    SystemId::new(u48_at(octets, at)).unwrap()
}
