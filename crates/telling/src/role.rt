// What an extension is, told by its identifier octets and where it stands.
ghost use Rattle.std.specs.Prelude.{◌≡◌};
ghost use Rattle.telling.specs.Roles.{role_of};

// The identifiers of the extensions that are read.
pub const CRL_NUMBER: &[u8] = &[0x55, 0x1d, 0x14];

pub const REASON_CODE: &[u8] = &[0x55, 0x1d, 0x15];

pub const EXPIRED_CERTS_ON_CRL: &[u8] = &[0x55, 0x1d, 0x3c];

// Where an extension stands.
#[derive(Clone, Copy, Debug, PartialEq, Eq)]
pub enum Context {
    List,
    Entry,
}

// What an extension is there. Every identifier has a role.
#[derive(Clone, Copy, Debug, PartialEq, Eq)]
pub enum Role {
    Number,
    Expired,
    Reason,
    // Passed over unopened, unless it is critical.
    Other,
}

// The role of an extension with this identifier.
pub fn role_of(context: Context, identifier: &[u8]) -> Role
    ensures { result ≡ role_of context identifier.now }
{
    match (context, identifier) {
        (Context::List, CRL_NUMBER) => Role::Number,
        (Context::List, EXPIRED_CERTS_ON_CRL) => Role::Expired,
        (Context::Entry, REASON_CODE) => Role::Reason,
        _ => Role::Other,
    }
}
